// How many answers there were from each source, and how many were as expected.
use crate::trouble::NoLine;
use std::fmt;

// Who gave an answer: document 01, the set-up of recorded cases, the model, the crate or LevelDB.
#[derive(Clone, Copy, Debug, PartialEq, Eq)]
pub enum Source {
    Document,
    SetUp,
    Model,
    Crate,
    LevelDb,
}

// In the order in which they are written.
const SOURCES: [Source; 5] = [
    Source::Document,
    Source::SetUp,
    Source::Model,
    Source::Crate,
    Source::LevelDb,
];

impl Source {
    // As lines name it.
    fn name(self) -> &'static str {
        match self {
            Source::Document => "document",
            Source::SetUp => "set-up",
            Source::Model => "model",
            Source::Crate => "crate",
            Source::LevelDb => "leveldb",
        }
    }
}

impl TryFrom<&[u8]> for Source {
    type Error = NoLine;

    fn try_from(name: &[u8]) -> Result<Source, NoLine> {
        SOURCES
            .into_iter()
            .find(|source| source.name().as_bytes() == name)
            .ok_or(NoLine)
    }
}

#[derive(Clone, Copy, Debug, Default)]
struct Count {
    asked: u64,
    right: u64,
}

// The counts of the sources, and of all answers that were not as expected.
#[derive(Clone, Copy, Debug, Default)]
pub struct Tally {
    counts: [Count; 5],
    wrong: u64,
}

impl Tally {
    // Counts an answer of a source.
    pub fn note(&mut self, by: Source, right: bool) {
        let count = &mut self.counts[by as usize];
        count.asked = count.asked.saturating_add(1);
        if right {
            count.right = count.right.saturating_add(1);
        } else {
            self.wrong = self.wrong.saturating_add(1);
        }
    }
}

// A line for each source, and last whether all is as expected.
impl fmt::Display for Tally {
    fn fmt<W: fmt::Write>(&self, f: &mut fmt::Formatter<W>) -> fmt::Result {
        for source in SOURCES {
            let Count { asked, right } = self.counts[source as usize];
            writeln!(f, "{}: {right} of {asked} answers", source.name())?;
        }
        if self.wrong > 0 {
            write!(f, "NOT ")?;
        }
        writeln!(f, "all as expected")
    }
}
