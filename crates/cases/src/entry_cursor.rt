// The calls on the entry cursor of one table.
use crate::answers::Moved;
use crate::entry::{DELETION, Key, VALUE};
use crate::one_table;
use crate::show::View;
use crate::state::Memory;
use crate::trouble::Trouble;
use capi::entry_iter::{
    BavoEntryCursor, BavoEntryMoved, bavo_entry_first, bavo_entry_key, bavo_entry_kind,
    bavo_entry_next, bavo_entry_number, bavo_entry_prev, bavo_entry_refusal, bavo_entry_seek,
    bavo_entry_value,
};
use std::alloc::{AllocError, Global};

// The entry at a cursor, as document 01 writes it, and its node; an empty value of a deletion is not written.
fn write_entry(image: &[u8], at: BavoEntryCursor, out: &mut String) -> Result<(), AllocError> {
    let key = View::new(image, bavo_entry_key(image, at));
    let number = bavo_entry_number(image, at);
    let kind = bavo_entry_kind(image, at);
    let value = bavo_entry_value(image, at);
    let mark = if kind == VALUE { '=' } else { '-' };
    write!(out, "{key}@{number}{mark}")?;
    if kind != DELETION || value.length > 0 {
        write!(out, "{}", View::new(image, value))?;
    }
    write!(out, " node {}", at.node)
}

// Takes the cursor where a move led, and writes that.
fn go(r: BavoEntryMoved, memory: &mut Memory, out: &mut String) -> Result<(), AllocError> {
    let at = BavoEntryCursor {
        on: r.on,
        node: r.node,
    };
    memory.cursor = at;
    let image = memory.image.as_slice();
    Moved::from(r).write(out, |out| write_entry(image, at, out))
}

// The moves, and what stands at the cursor. Any other line is a question to the table.
pub fn ask(
    alloc: Global,
    words: &[&[u8]],
    memory: &mut Memory,
    out: &mut String,
) -> Result<(), Trouble> {
    let image = memory.image.as_slice();
    let at = memory.cursor;
    match words {
        [b"entry_first", _] => go(bavo_entry_first(image, at), memory, out)?,
        [b"entry_seek", _, key] => {
            let key = Key::new(alloc, key)?;
            let r = bavo_entry_seek(image, at, key.bytes.as_slice(), key.number);
            go(r, memory, out)?
        }
        [b"entry_next", _] => go(bavo_entry_next(image, at), memory, out)?,
        [b"entry_prev", _] => go(bavo_entry_prev(image, at), memory, out)?,
        [b"entry_key", _] => View::new(image, bavo_entry_key(image, at)).write_at(None, out)?,
        [b"entry_value", _] => View::new(image, bavo_entry_value(image, at)).write_at(None, out)?,
        [b"entry_number", _] => write!(out, "{}", bavo_entry_number(image, at))?,
        [b"entry_kind", _] => write!(out, "{}", bavo_entry_kind(image, at))?,
        [b"entry_refusal", _] => write!(out, "{}", bavo_entry_refusal(image, at))?,
        _ => one_table::ask(alloc, words, image, out)?,
    }
    Ok(())
}
