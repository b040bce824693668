// What writes to a table's memory: the two calls that do, and the lines that lend a memory or overwrite bytes of it.
use crate::entry::Entry;
use crate::given::{hexes, number};
use crate::show::Refused;
use crate::state::{Memory, State};
use crate::tables::Table;
use crate::trouble::{NoLine, Trouble};
use capi::memtable::{BavoAdded, bavo_add, bavo_fresh};
use std::alloc::{AllocError, Global};

// A refused call, which is to keep every byte.
fn write_refused(refused: Refused, state: &State, out: &mut String) -> Result<(), AllocError> {
    let (image, before) = state.written();
    write!(out, "{refused}")?;
    if before.starts_with(image) {
        return Ok(());
    }
    out.push_str(" but bytes changed")
}

// Makes an empty table, with the bytes before it kept.
pub fn fresh(table: Table, state: &mut State, out: &mut String) -> Result<(), AllocError> {
    state.keep(table);
    let refusal = bavo_fresh(state.memory_mut(table).image.as_mut_slice());
    match Refused::unless_zero(refusal) {
        Ok(()) => out.push_str("done"),
        Err(refused) => write_refused(refused, state, out),
    }
}

// Adds an entry; the last word is h and the height.
fn added(alloc: Global, entry: &[u8], tall: &[u8], image: &mut [u8]) -> Result<BavoAdded, Trouble> {
    let height = number(tall.strip_prefix(b"h").ok_or(NoLine)?)?;
    let entry = Entry::new(alloc, entry)?;
    let value = entry.value(alloc)?;
    let key = entry.key.bytes.as_slice();
    Ok(bavo_add(
        image,
        key,
        entry.key.number,
        entry.kind,
        value.as_slice(),
        height,
    ))
}

// The same with the bytes before it kept, also where the words give no entry.
pub fn add(
    alloc: Global,
    entry: &[u8],
    tall: &[u8],
    table: Table,
    state: &mut State,
    out: &mut String,
) -> Result<(), Trouble> {
    state.keep(table);
    let image = state.memory_mut(table).image.as_mut_slice();
    let r = added(alloc, entry, tall, image)?;
    match Refused::unless_zero(r.refusal) {
        Ok(()) => write!(out, "node {}", r.node)?,
        Err(refused) => write_refused(refused, state, out)?,
    }
    Ok(())
}

// So many bytes, all the one that is given in hexadecimal.
pub fn lend(alloc: Global, len: &[u8], with: &[u8], memory: &mut Memory) -> Result<(), Trouble> {
    let len = number(len)?;
    match hexes(alloc, with)?.as_slice() {
        [with] => memory.lend(len, *with),
        _ => Err(Trouble::NoLine),
    }
}

// Overwrites bytes of the image, which are all to lie in it.
pub fn set(alloc: Global, from: &[u8], with: &[u8], memory: &mut Memory) -> Result<(), Trouble> {
    let from: usize = number(from)?;
    let with = hexes(alloc, with)?;
    if with.is_empty() {
        return Err(Trouble::NoLine);
    }
    let behind = memory.image.as_mut_slice().get_mut(from..).ok_or(NoLine)?;
    let place = behind.get_mut(..with.len()).ok_or(NoLine)?;
    place.copy_from_slice(with.as_slice());
    Ok(())
}
