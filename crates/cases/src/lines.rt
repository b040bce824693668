// Does what a line asks for: its first word, and the words that belong to it.
use crate::given::number;
use crate::state::State;
use crate::tables::Table;
use crate::tally::Source;
use crate::trouble::Trouble;
use crate::{changes, entry_cursor, pair, writes};
use capi::db_iter::BavoCursor;
use capi::entry_iter::BavoEntryCursor;
use std::alloc::Global;

// The lines about one table, which their second word names. The heap comes first and what is written last, as in the library's calls;
// neither belongs to the state.
fn follow_on(
    alloc: Global,
    words: &[&[u8]],
    table: Table,
    state: &mut State,
    out: &mut String,
) -> Result<(), Trouble> {
    match words {
        [b"entry_cursor", _, on, node] => {
            let cursor = BavoEntryCursor {
                on: number(on)?,
                node: number(node)?,
            };
            state.memory_mut(table).cursor = cursor;
        }
        [b"lend", _, len, with] => writes::lend(alloc, len, with, state.memory_mut(table))?,
        [b"set", _, from, with] => writes::set(alloc, from, with, state.memory_mut(table))?,
        [b"fresh", _] => writes::fresh(table, state, out)?,
        [b"add", _, entry, tall] => writes::add(alloc, entry, tall, table, state, out)?,
        _ => entry_cursor::ask(alloc, words, state.memory_mut(table), out)?,
    }
    Ok(())
}

// Does what the words of a line ask for, and writes the answer; a line that asks nothing has none.
pub fn follow(
    alloc: Global,
    words: &[&[u8]],
    state: &mut State,
    out: &mut String,
) -> Result<(), Trouble> {
    // No other line has a table's name there.
    if let [_, name, ..] = words
        && let Ok(table) = Table::try_from(*name)
    {
        return follow_on(alloc, words, table, state, out);
    }
    match words {
        [b"by", name] => state.by = Source::try_from(*name)?,
        [b"cursor", table, node] => {
            state.cursor = BavoCursor {
                table: number(table)?,
                node: number(node)?,
            };
        }
        [b"case", first, second] => state.begin(number(first)?, number(second)?)?,
        [b"changed"] => {
            let (image, before) = state.written();
            changes::all(image, before, out)?
        }
        _ => pair::ask(alloc, words, state, out)?,
    }
    Ok(())
}
