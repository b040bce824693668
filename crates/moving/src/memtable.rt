// Made by tools/moving from crates/table/src/memtable.rt: its bodies, other contracts.
// The memtable: the calls on one table. None of them asks anything of its caller; each fixes its answer, and of a lent image
// every byte afterwards, on any bytes. A refusal has a number and keeps every byte.
ghost use Rattle.std.specs.Prelude.{◌≡◌, length};
ghost use Rattle.moving.specs.Neighbours.{NodeIn};
ghost use Rattle.moving.specs.Answers.{LookupFits};

use crate::entries::MAX_VALUE;
use crate::insert::{fresh_header, insert};
use crate::key_types::{Kind, LookupKey, compare_keys};
use crate::nodes::{HEADER_SIZE, LEVELS, MAX_IMAGE};
use crate::refusals::Refusal;
use crate::skipmap::OnEqual;
use crate::tested::{Entry, Table};

// Makes an empty table of any bytes of a legal length: its header is written, the other bytes keep what they held.
pub fn fresh(s: &mut [u8]) -> Result<(), Refusal>
    ensures { length s.new ≡ length s.old }
{
    if s.len() < HEADER_SIZE {
        return Err(Refusal::BadImage);
    }
    if s.len() > MAX_IMAGE {
        return Err(Refusal::BadImage);
    }
    fresh_header(s);
    Ok(())
}

// Adds an entry in a node of the given height; answers the new node's number. Refusals 1, 2, 3, 4, 5, 6, then 9 or 8, then 7. The type
// is a number, since the call promises what becomes of one above 1.
pub fn add(
    s: &mut [u8],
    key: &[u8],
    number: u64,
    kind: u8,
    value: &[u8],
    height: usize,
) -> Result<usize, Refusal>
    ensures { length s.new ≡ length s.old }
{
    let Some(table) = Table::open(s) else {
        return Err(Refusal::BadImage);
    };
    let frame = table.frame;
    let kind = Kind::try_from(kind)?;
    let LookupKey { key, number } = LookupKey::of(key, number)?;
    if value.len() > MAX_VALUE {
        return Err(Refusal::LongValue);
    }
    if height < 1 {
        return Err(Refusal::BadHeight);
    }
    if height > LEVELS {
        return Err(Refusal::BadHeight);
    }
    let entry = Entry {
        key,
        number,
        kind,
        value,
    };
    insert(s, frame, entry, height)
}

// The newest entry of a key: its node and its type.
#[derive(Clone, Copy)]
pub struct Newest {
    pub node: usize,
    pub kind: Kind,
}

impl<'a> Table<'a> {
    // What the node at which the search for a key stands says of the key, or nothing where it is another key's or there is none.
    pub(crate) fn said_at(self, key: &[u8], at: Option<usize>) -> Result<Option<Newest>, Refusal>
        requires { NodeIn self.frame.count at }
    {
        let Some(node) = at else {
            return Ok(None);
        };
        let parts = self.node_of(node)?.parts;
        if compare_keys(parts.keyed.key(self.bytes), key).is_ne() {
            return Ok(None);
        }
        Ok(Some(Newest {
            node,
            kind: parts.kind,
        }))
    }
}

// What a lookup answers, with the looks that it took: the node of the found value, that the newest entry is a deletion, or that
// there is none.
#[derive(Clone, Copy)]
pub enum Lookup {
    Found { node: usize, looks: usize },
    Deleted { looks: usize },
    Absent { looks: usize },
}

// The newest entry of a key up to a snapshot. Refusals 1, 3, 4, 9.
pub fn get(s: &[u8], key: &[u8], snapshot: u64) -> Result<Lookup, Refusal>
    ensures { LookupFits 4108 result }
{
    let table = Table::open(s).ok_or(Refusal::BadImage)?;
    let probe = LookupKey::of(key, snapshot)?;
    let stands = table.first_not_passed(OnEqual::Stop, probe)?;
    let looks = stands.looks;
    let Some(said) = table.said_at(key, stands.node)? else {
        return Ok(Lookup::Absent { looks });
    };
    Ok(match said.kind {
        Kind::Value => Lookup::Found {
            node: said.node,
            looks,
        },
        Kind::Deletion => Lookup::Deleted { looks },
    })
}
