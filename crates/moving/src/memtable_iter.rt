// Made by tools/moving from crates/table/src/memtable_iter.rt: its bodies, other contracts.
// The entry cursor: over all entries of one table in their order, deletions included; and what stands at it.
// A cursor is a node number, not a place in memory: in a sound table additions never change what it shows. Nothing here writes.
ghost use Rattle.std.specs.Prelude.{◌≤◌, length};
ghost use Rattle.moving.specs.Entries.{KeyInside};
ghost use Rattle.moving.specs.Neighbours.{NodeIn};
ghost use Rattle.moving.specs.Answers.{OpensAt, TestFits};

use crate::entries::Keyed;
use crate::key_types::LookupKey;
use crate::nodes::LINKS_AT;
use crate::refusals::Refusal;
use crate::skipmap::OnEqual;
use crate::tested::{Frame, Table};
use crate::words::get_wide;

// Nowhere, or on a node: an enum of its own, as the visible cursor is, since None would not say nowhere.
#[derive(Clone, Copy)]
pub enum EntryCursor {
    Nowhere,
    On(usize),
}

// On a node, or nowhere where there is none.
impl From<Option<usize>> for EntryCursor {
    fn from(at: Option<usize>) -> EntryCursor {
        match at {
            None => EntryCursor::Nowhere,
            Some(node) => EntryCursor::On(node),
        }
    }
}

// A refused move: why, and the cursor as it was handed.
#[derive(Clone, Copy)]
pub struct Stays<C> {
    pub why: Refusal,
    pub at: C,
}

// The answer of a move from a cursor; a refused one hands the cursor back.
pub fn hand_back<C: Copy>(moved: Result<C, Refusal>, at: C) -> Result<C, Stays<C>> {
    moved.map_err(|why| Stays { why, at })
}

// Whether a cursor may be used on a table, with the frame that was read. The header is tested, then the cursor: it names a node of the
// table, or none. Refusals 1, 10.
pub fn test_cursor(s: &[u8], c: EntryCursor) -> Result<Frame, Refusal>
    ensures { TestFits (length s.now) c result }
{
    let table = Table::open(s).ok_or(Refusal::BadImage)?;
    let EntryCursor::On(node) = c else {
        return Ok(table.frame);
    };
    if node < 1 {
        return Err(Refusal::NoNode);
    }
    if node > table.frame.count {
        return Err(Refusal::NoNode);
    }
    Ok(table.frame)
}

// The table of an image on which a cursor may be used. Refusals 1, 10.
pub(crate) fn open_at(s: &[u8], c: EntryCursor) -> Result<Table<'_>, Refusal>
    ensures { OpensAt (length s.now) c result }
{
    let frame = test_cursor(s, c)?;
    Ok(Table { bytes: s, frame })
}

impl<'a> Table<'a> {
    // The end of a move on a neighbour: nowhere, or on a node that can be read whole.
    pub(crate) fn land(self, at: Option<usize>) -> Result<Option<usize>, Refusal>
        requires { NodeIn self.frame.count at }
    {
        if let Some(node) = at {
            self.node_of(node)?;
        }
        Ok(at)
    }

    // The end of a move behind an entry: a node that does not come after it is damage. The link is handed on as it was read, 0 for none.
    fn land_after(self, from: Keyed, at: usize) -> Result<Option<usize>, Refusal>
        requires { (at ≤ self.frame.count) × KeyInside (length self.bytes.now) from }
    {
        if at < 1 {
            return Ok(None);
        }
        let parts = self.node_of(at)?.parts;
        if !from.precedes(self.bytes, parts.keyed) {
            return Err(Refusal::Damaged);
        }
        Ok(Some(at))
    }

    // The entry after that of a node: where its lowest link leads.
    fn entry_after(self, node: usize) -> Result<Option<usize>, Refusal>
        requires { (1 ≤ node) × (node ≤ self.frame.count) }
    {
        let here = self.node_of(node)?;
        let after = get_wide(self.bytes, here.start + LINKS_AT);
        if after > self.frame.count {
            return Err(Refusal::Damaged);
        }
        self.land_after(here.parts.keyed, after)
    }

    // The entry before that of a node. It searches, where entry_after follows a link: they share the reading of the node alone.
    fn entry_before(self, node: usize) -> Result<Option<usize>, Refusal>
        requires { (1 ≤ node) × (node ≤ self.frame.count) }
    {
        let here = self.node_of(node)?;
        let before = self.last_before(here.parts.keyed.lookup_key(self.bytes))?;
        self.land(before.node)
    }

    // The first entry.
    fn entry_first(self) -> Result<Option<usize>, Refusal> {
        let first = self.first_node()?;
        self.land(first.node)
    }
}

// The moves, before a refused one hands back the cursor. Image and cursor stand side by side, as in C's calls.
fn to_first(s: &[u8], c: EntryCursor) -> Result<EntryCursor, Refusal> {
    let table = open_at(s, c)?;
    let to = table.entry_first()?;
    Ok(EntryCursor::from(to))
}

fn to_sought(s: &[u8], c: EntryCursor, key: &[u8], number: u64) -> Result<EntryCursor, Refusal> {
    let table = open_at(s, c)?;
    let probe = LookupKey::of(key, number)?;
    let stands = table.first_not_passed(OnEqual::Stop, probe)?;
    let to = table.land(stands.node)?;
    Ok(EntryCursor::from(to))
}

fn to_next(s: &[u8], c: EntryCursor) -> Result<EntryCursor, Refusal> {
    let table = open_at(s, c)?;
    let to = match c {
        EntryCursor::Nowhere => table.entry_first()?,
        EntryCursor::On(node) => table.entry_after(node)?,
    };
    Ok(EntryCursor::from(to))
}

fn to_previous(s: &[u8], c: EntryCursor) -> Result<EntryCursor, Refusal> {
    let table = open_at(s, c)?;
    let to = match c {
        EntryCursor::Nowhere => None,
        EntryCursor::On(node) => table.entry_before(node)?,
    };
    Ok(EntryCursor::from(to))
}

// The first entry. Refusals 1, 10, 9.
pub fn entry_first(s: &[u8], c: EntryCursor) -> Result<EntryCursor, Stays<EntryCursor>> {
    hand_back(to_first(s, c), c)
}

// The first entry at or after a key and a number in the order. Refusals 1, 10, 3, 4, 9.
pub fn entry_seek(
    s: &[u8],
    c: EntryCursor,
    key: &[u8],
    number: u64,
) -> Result<EntryCursor, Stays<EntryCursor>> {
    hand_back(to_sought(s, c, key, number), c)
}

// The next entry; from nowhere the first, from the last nowhere. Refusals 1, 10, 9.
pub fn entry_next(s: &[u8], c: EntryCursor) -> Result<EntryCursor, Stays<EntryCursor>> {
    hand_back(to_next(s, c), c)
}

// The entry before; from nowhere and from the first nowhere. Refusals 1, 10, 9.
pub fn entry_prev(s: &[u8], c: EntryCursor) -> Result<EntryCursor, Stays<EntryCursor>> {
    hand_back(to_previous(s, c), c)
}
