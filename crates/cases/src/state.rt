// What lines carry from one to the next.
ghost use Rattle.std.specs.Prelude.{◌≡◌, OnOk, vec_len};

use crate::tables::Table;
use crate::tally::Source;
use crate::trouble::Trouble;
use capi::db_iter::BavoCursor;
use capi::entry_iter::BavoEntryCursor;
use std::alloc::Global;

// A memory has at most this many bytes: the longest image, and one byte more.
pub const SIZE: usize = 65537;

// A table's memory, which is its image, and its entry cursor as C keeps it.
#[derive(Drop)]
pub struct Memory {
    pub image: Vec<u8>,
    pub cursor: BavoEntryCursor,
}

impl Memory {
    // No bytes, and the cursor nowhere.
    fn new(alloc: Global) -> Memory {
        Memory {
            image: Vec::new(alloc),
            cursor: BavoEntryCursor { on: 0, node: 0 },
        }
    }

    // Lends the memory anew, all bytes the same.
    pub fn lend(&mut self, len: usize, with: u8) -> Result<(), Trouble>
        ensures { OnOk result (vec_len self.new.image ≡ len) }
    {
        if len > SIZE {
            return Err(Trouble::NoLine);
        }
        self.image.clear();
        // No more than asked for: resize alone would make room for twice as many.
        self.image.reserve_exact(len)?;
        Ok(self.image.resize(len, with)?)
    }

    // Zero bytes, and the cursor nowhere.
    fn begin(&mut self, len: usize) -> Result<(), Trouble> {
        self.cursor = BavoEntryCursor { on: 0, node: 0 };
        self.lend(len, 0)
    }
}

// The two tables' memories; who answers; the visible cursor as C keeps it; the table of the last fresh or add, and the bytes that it
// had before. These are as many as a memory can have: where the table has been lent longer since, older bytes stand behind. They are an array,
// on the stack: beside the two images a Vec of them would make the heap grow.
#[derive(Drop)]
pub struct State {
    memories: [Memory; 2],
    pub by: Source,
    pub cursor: BavoCursor,
    wrote: Table,
    before: [u8; SIZE],
}

impl State {
    // As before the first line.
    pub fn new(alloc: Global) -> State {
        State {
            memories: [Memory::new(alloc), Memory::new(alloc)],
            by: Source::Document,
            cursor: BavoCursor { table: 0, node: 0 },
            wrote: Table::A,
            before: [0; SIZE],
        }
    }

    pub fn memory(&self, table: Table) -> &Memory {
        &self.memories[table as usize]
    }

    pub fn memory_mut(&mut self, table: Table) -> &mut Memory {
        &mut self.memories[table as usize]
    }

    // Begins a case: both memories of zero bytes, every cursor nowhere. Where one is too long, the other is lent all the same.
    pub fn begin(&mut self, first: usize, second: usize) -> Result<(), Trouble> {
        self.cursor = BavoCursor { table: 0, node: 0 };
        let first = self.memory_mut(Table::A).begin(first);
        let second = self.memory_mut(Table::B).begin(second);
        first.and(second)
    }

    // Keeps the bytes of a table that is about to be written.
    pub fn keep(&mut self, table: Table) {
        let State {
            memories,
            wrote,
            before,
            ..
        } = self;
        *wrote = table;
        // A memory is lent beside `before` only through a & to them all.
        let memories = &*memories;
        let image = memories[table as usize].image.as_slice();
        if let Some(kept) = before.get_mut(..image.len()) {
            kept.copy_from_slice(image);
        }
    }

    // The table of the last fresh or add as it is, and what it was.
    pub fn written(&self) -> (&[u8], &[u8]) {
        (self.memory(self.wrote).image.as_slice(), &self.before)
    }
}
