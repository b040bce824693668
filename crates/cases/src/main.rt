// Runs the cases of a text through the calls for C. Each line of standard input asks for a call and, behind an arrow, has the answer
// that it is to give; the top of the text says how lines are written. A line for each answer that differs is written, and at the
// end how many were as expected.
#![tactic(auto)]

mod answers; // answers.rt: what C's structs answer, in words
mod changes; // changes.rt: which bytes a call changed
mod entry; // entry.rt: an entry as document 01 writes it
mod entry_cursor; // entry_cursor.rt: the calls on the entry cursor
mod given; // given.rt: numbers and bytes as a line gives them
mod lines; // lines.rt: what a line asks for
mod one_table; // one_table.rt: the calls on one table
mod pair; // pair.rt: the calls over both tables
mod show; // show.rt: bytes, tables, refusals and views in words
mod state; // state.rt: what lines carry from one to the next
mod tables; // tables.rt: the two tables by name
mod tally; // tally.rt: how many answers were as expected
mod trouble; // trouble.rt: why a line has no answer
mod writes; // writes.rt: what writes to a table's memory

ghost use Rattle.std.specs.Prelude.{◌≤◌, length};

use crate::state::State;
use crate::tally::Tally;
use crate::trouble::Trouble;
use std::alloc::{AllocError, Global};
use std::io;
use std::io::{Read, Write};

// A text has fewer bytes than this.
const TOO_LONG: usize = 524288;

// No more of an answer is compared and written: the longest value, 4,096 bytes, and some words.
const LONGEST_ANSWER: usize = 4200;

// No line of a case has more words than this; one more is enough to tell that a line is none.
const MOST_WORDS: usize = 4;

const ARROW: &[u8] = b" -> ";

// Whether an answer is the expected one. Behind two dots at its end an expectation says nothing.
fn holds(expected: &[u8], answer: &[u8]) -> bool {
    match expected.strip_suffix(b"..") {
        Some(front) if front.len() > 1 && front.ends_with(b" ") => answer.starts_with(front),
        _ => answer == expected,
    }
}

// The call of a line, and what is expected of it: nothing, where there is no arrow.
fn cut(line: &[u8]) -> (&[u8], &[u8]) {
    let arrow = line.windows(ARROW.len()).position(|w| w == ARROW);
    let (call, behind) = line.split_at(arrow.unwrap_or(line.len()));
    (call, behind.strip_prefix(ARROW).unwrap_or(&[]))
}

// The first bytes of an answer.
fn front(answer: &str) -> &[u8]
    ensures { length result.now ≤ LONGEST_ANSWER }
{
    let answer = answer.as_bytes();
    answer.get(..LONGEST_ANSWER).unwrap_or(answer)
}

// A run over a text: where it writes, what lines carry from one to the next, and the counts.
#[derive(Drop)]
struct Run<W> {
    alloc: Global,
    to: W,
    state: State,
    tally: Tally,
}

impl<W: Write + Drop> Run<W> {
    fn new(alloc: Global, to: W) -> Run<W> {
        Run {
            alloc,
            to,
            state: State::new(alloc),
            tally: Tally::default(),
        }
    }

    // Counts a line whose answer differs, or that is none, and writes it.
    fn differs(&mut self, n: u64, line: &[u8], answer: Option<&[u8]>) -> io::Result<()> {
        self.tally.note(self.state.by, false);
        write!(self.to, "line {n}: ")?;
        self.to.write_all(line)?;
        match answer {
            Some(answer) => {
                self.to.write_all(b"\n  came out: ")?;
                self.to.write_all(answer)?;
            }
            None => self.to.write_all(b"\n  is no line of a case")?,
        }
        self.to.write_all(b"\n")
    }

    // Runs the line with the number n, the first being 1. One that asks nothing is counted only if it is wrong.
    fn line(&mut self, n: u64, line: &[u8]) -> io::Result<()> {
        let (call, expected) = cut(line);
        let words: Vec<&[u8]> = call
            .split(|b| *b == b' ')
            .take(MOST_WORDS + 1)
            .collect(self.alloc)?;
        let mut out = String::new(self.alloc);
        match lines::follow(self.alloc, words.as_slice(), &mut self.state, &mut out) {
            Ok(()) => {}
            Err(Trouble::NoLine) => return self.differs(n, line, None),
            Err(Trouble::OutOfMemory) => return Err(AllocError.into()),
        }
        let answer = front(out.as_str());
        if !holds(expected, answer) {
            return self.differs(n, line, Some(answer));
        }
        if !answer.is_empty() {
            self.tally.note(self.state.by, true);
        }
        Ok(())
    }

    // Runs the lines of a text, and writes the counts; an empty line and a comment say nothing.
    fn text(&mut self, text: &[u8]) -> io::Result<()> {
        for (n, line) in (1u64..).zip(text.split(|b| *b == b'\n')) {
            if !matches!(line, [] | [b'#', ..]) {
                self.line(n, line)?;
            }
        }
        write!(self.to, "{}", self.tally)?;
        if text.len() == TOO_LONG {
            self.to.write_all(b"the text is too long\n")?;
        }
        Ok(())
    }
}

fn main(rt: HostRuntime) -> io::Result<()> {
    // On the stack, where the text takes no more than this; a Vec asks for twice as much each time that it is full.
    let mut space = [0; TOO_LONG];
    let n = io::copy(
        &mut rt.reader().take(TOO_LONG as u64),
        &mut space.as_mut_slice(),
    )?;
    let text = space.get(..n as usize).unwrap_or(&[]);
    Run::new(rt.alloc(), io::writer(&rt)).text(text)
}
