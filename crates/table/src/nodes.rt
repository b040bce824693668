// Header and nodes of an image, read.
// An image is a header, then nodes from 64 up to the first free byte, then free bytes, and from the end downwards one slot for
// each node with its offset. Nothing here writes; what is read is trusted no further than the bytes before it show.
ghost use Rattle.std.specs.Prelude.{◌≡◌, ◌<◌, ◌≤◌};
ghost use Rattle.image.specs.Nodes.{slot, lead_at, node_from, lead_of, node_at, free};
ghost use Rattle.image.specs.Readers.{bind};
ghost use Rattle.image.specs.Sound.{header_holds};
ghost use Rattle.table.specs.Refusals.{read_as};
ghost use Rattle.table.specs.Nodes.{Opens, lead_is, node_is, KindFits};

use crate::entries::{Keyed, Parts, keyed_at, rest_at};
use crate::refusals::Fault;
pub use crate::tested::Frame;
use crate::tested::Table;
use crate::words::get_wide;

// Bytes of the header; no image is shorter, and the first node starts behind it.
pub(crate) const HEADER_SIZE: usize = 64;

// The most bytes of an image.
pub(crate) const MAX_IMAGE: usize = 65536;

// The most nodes of an image.
pub(crate) const MAX_NODES: usize = 4096;

// Levels of links, which is also the height of the tallest node.
pub(crate) const LEVELS: usize = 12;

// Where the fields of the header stand: image length, node count, first free byte, level count, links of the head.
pub(crate) const LENGTH_AT: usize = 0;

pub(crate) const COUNT_AT: usize = 4;

pub(crate) const FREE_AT: usize = 8;

pub(crate) const LEVELS_AT: usize = 12;

pub(crate) const HEAD_LINKS: usize = 16;

// Where the links of a node stand, counted from its start.
pub(crate) const LINKS_AT: usize = 8;

// What leads a node: its height, where its key stands, its tag, and where it ends.
#[derive(Clone, Copy)]
pub(crate) struct Lead {
    pub start: usize,
    pub height: usize,
    pub keyed: Keyed,
    pub end: usize,
}

// A whole node.
#[derive(Clone, Copy)]
pub(crate) struct Node {
    pub start: usize,
    pub height: usize,
    pub parts: Parts,
    pub end: usize,
}

impl<'a> Table<'a> {
    // Reads the header once: length, levels, count and first free byte, each within its limits.
    pub(crate) fn open(bytes: &'a [u8]) -> Option<Table<'a>>
        ensures { Opens bytes.now result }
    {
        let len = bytes.len();
        if len < HEADER_SIZE {
            return None;
        }
        if len > MAX_IMAGE {
            return None;
        }
        if get_wide(bytes, LENGTH_AT) != len {
            return None;
        }
        if get_wide(bytes, LEVELS_AT) != LEVELS {
            return None;
        }
        let count = get_wide(bytes, COUNT_AT);
        if count > MAX_NODES {
            return None;
        }
        let free = get_wide(bytes, FREE_AT);
        if free < HEADER_SIZE {
            return None;
        }
        if free + 4 * count > len {
            return None;
        }
        Some(Table {
            bytes,
            frame: Frame { count, free },
        })
    }

    // What slot i holds, the offset of node i. That i numbers a node is asked wherever one is read: a type for it would be one table's.
    pub(crate) fn slot(self, i: usize) -> usize
        requires { (1 ≤ i) × (i ≤ self.frame.count) }
        ensures { (result ≡ slot self.entry.bytes.now i) × (result < 4294967296) }
    {
        get_wide(self.bytes, self.bytes.len() - 4 * i)
    }

    // The lead of the node that starts at o and ends at the first free byte or before.
    pub(crate) fn lead_at(self, o: usize) -> Result<Lead, Fault>
        requires { o < 4294967296 }
        ensures { read_as lead_is result ≡ lead_at self.entry.bytes.now (free self.entry.bytes.now) o }
    {
        let limit = self.frame.free;
        let fault = Fault { at: o };
        if o < HEADER_SIZE {
            return Err(fault);
        }
        if o + LINKS_AT > limit {
            return Err(fault);
        }
        let height = get_wide(self.bytes, o);
        if height < 1 {
            return Err(fault);
        }
        if height > LEVELS {
            return Err(fault);
        }
        let entry = o + LINKS_AT + 4 * height;
        let end = entry + get_wide(self.bytes, o + 4);
        if end > limit {
            return Err(fault);
        }
        Ok(Lead {
            start: o,
            height,
            keyed: keyed_at(self.bytes, entry, end)?,
            end,
        })
    }

    // The node that starts at o and ends at the first free byte or before: its lead, then its type and its value.
    pub(crate) fn node_at(self, o: usize) -> Result<Node, Fault>
        requires { o < 4294967296 }
        ensures exact { read_as node_is result ≡ bind (lead_at self.entry.bytes.now (free self.entry.bytes.now) o) (node_from self.entry.bytes.now) }
        ensures kind { KindFits result }
    {
        let lead = self.lead_at(o)?;
        Ok(Node {
            start: lead.start,
            height: lead.height,
            parts: rest_at(self.bytes, lead.end, lead.keyed)?,
            end: lead.end,
        })
    }

    // The lead of node i; a search reads no more of a node, and node_of the whole.
    pub(crate) fn lead_of(self, i: usize) -> Result<Lead, Fault>
        requires { (1 ≤ i) × (i ≤ self.frame.count) }
        ensures { read_as lead_is result ≡ lead_of self.entry.bytes.now i }
    {
        self.lead_at(self.slot(i))
    }

    // Node i.
    pub(crate) fn node_of(self, i: usize) -> Result<Node, Fault>
        requires { (1 ≤ i) × (i ≤ self.frame.count) }
        ensures exact { read_as node_is result ≡ node_at self.entry.bytes.now i }
        ensures kind { KindFits result }
    {
        self.node_at(self.slot(i))
    }
}

// Whether the header holds.
pub fn header_holds(s: &[u8]) -> bool
    ensures { result ≡ header_holds s.now }
{
    Table::open(s).is_some()
}
