// The visible cursor over two tables, and the lookup in a pair.
ghost use Rattle.std.specs.Prelude.{◌≡◌};
ghost use Rattle.rule.specs.Moves as rule;
ghost use Rattle.cursor.specs.Pairs.{GetsPair};
ghost use Rattle.cursor.specs.Moves.{Moves};
ghost use Rattle.capi.specs.Plain.{Plainly};
ghost use Rattle.capi.specs.DbIter.{side_number, cursor_of, plain_moved, plain_pair_lookup};

use cursor::merging_iter::{PairLookup, get_pair};
use cursor::places::{Cursor, Place, Side};
use table::memtable_iter::Stays;
use table::refusals::Refusal;

// The number of a table, which the header fixes: 1 the first, 2 the second. Neither type is of this crate, so it is no From.
pub(crate) fn side_number(side: Side) -> u32
    ensures { result ≡ side_number side }
{
    match side {
        Side::First => 1,
        Side::Second => 2,
    }
}

// What a lookup in a pair answers: 0 absent, 1 found in the table at the node, 2 deleted.
#[repr(C)]
#[derive(Clone, Copy)]
pub struct BavoPairLookup {
    pub refusal: u32,
    pub answer: u32,
    pub table: u32,
    pub node: usize,
    pub looks: usize,
}

impl From<Result<PairLookup, Refusal>> for BavoPairLookup {
    ghost from_gives = { λ a r. r ≡ plain_pair_lookup a };

    fn from(a: Result<PairLookup, Refusal>) -> BavoPairLookup {
        let (refusal, answer, table, node, looks) = match a {
            Ok(PairLookup::Found { place, looks }) => {
                (0, 1, side_number(place.table), place.node, looks)
            }
            Ok(PairLookup::Deleted { looks }) => (0, 2, 0, 0, looks),
            Ok(PairLookup::Absent { looks }) => (0, 0, 0, 0, looks),
            Err(q) => (q.number(), 0, 0, 0, 0),
        };
        BavoPairLookup {
            refusal,
            answer,
            table,
            node,
            looks,
        }
    }
}

// The newest entry of a key up to a snapshot in a pair. Refusals 1 (first table, then second), 3, 4, 9.
pub fn bavo_pair_get(first: &[u8], second: &[u8], key: &[u8], snapshot: u64) -> BavoPairLookup
    ensures { Plainly plain_pair_lookup (λ a. GetsPair first.now second.now key.now snapshot a) result }
{
    BavoPairLookup::from(get_pair(first, second, key, snapshot))
}

// A visible cursor: 0 nowhere, 1 on the node of the first table, 2 of the second.
#[repr(C)]
#[derive(Clone, Copy)]
pub struct BavoCursor {
    pub table: u32,
    pub node: usize,
}

// The cursor that is meant; a number above 2 is on node 0, which no table has.
impl From<BavoCursor> for Cursor {
    ghost from_gives = { λ at c. c ≡ cursor_of at };

    fn from(at: BavoCursor) -> Cursor {
        let (table, node) = match at.table {
            0 => return Cursor::Nowhere,
            1 => (Side::First, at.node),
            2 => (Side::Second, at.node),
            _ => (Side::First, 0),
        };
        Cursor::On(Place { table, node })
    }
}

// Where a move leads; a refused one hands back the cursor exactly as it was handed.
#[repr(C)]
#[derive(Clone, Copy)]
pub struct BavoMoved {
    pub refusal: u32,
    pub table: u32,
    pub node: usize,
}

// A move's answer as a struct; a refused one has the numbers of the cursor as they were, so this is no From.
fn plain_moved(at: BavoCursor, a: Result<Cursor, Stays<Cursor>>) -> BavoMoved
    ensures { result ≡ plain_moved at a }
{
    match a {
        Ok(Cursor::Nowhere) => BavoMoved {
            refusal: 0,
            table: 0,
            node: 0,
        },
        Ok(Cursor::On(p)) => BavoMoved {
            refusal: 0,
            table: side_number(p.table),
            node: p.node,
        },
        Err(stays) => BavoMoved {
            refusal: stays.why.number(),
            table: at.table,
            node: at.node,
        },
    }
}

// To the least key with a row. Refusals 1, 10, 3, 9.
pub fn bavo_first<'a>(first: &'a [u8], second: &'a [u8], snapshot: u64, at: BavoCursor) -> BavoMoved
    ensures { Plainly (plain_moved at) (λ a. Moves rule.first first.now second.now snapshot (cursor_of at) a) result }
{
    plain_moved(
        at,
        cursor::db_iter::first(first, second, snapshot, Cursor::from(at)),
    )
}

// To the least key with a row, at or above the given one. Refusals 1, 10, 3, 4, 9.
pub fn bavo_seek<'a>(
    first: &'a [u8],
    second: &'a [u8],
    snapshot: u64,
    at: BavoCursor,
    key: &[u8],
) -> BavoMoved
    ensures { Plainly (plain_moved at) (λ a. Moves (rule.seek key.now) first.now second.now snapshot (cursor_of at) a) result }
{
    plain_moved(
        at,
        cursor::db_iter::seek(first, second, snapshot, Cursor::from(at), key),
    )
}

// To the least key with a row above the cursor's. Refusals 1, 10, 3, 9.
pub fn bavo_next<'a>(first: &'a [u8], second: &'a [u8], snapshot: u64, at: BavoCursor) -> BavoMoved
    ensures { Plainly (plain_moved at) (λ a. Moves rule.next first.now second.now snapshot (cursor_of at) a) result }
{
    plain_moved(
        at,
        cursor::db_iter::next(first, second, snapshot, Cursor::from(at)),
    )
}

// To the greatest key with a row below the cursor's. Refusals 1, 10, 3, 9.
pub fn bavo_prev<'a>(first: &'a [u8], second: &'a [u8], snapshot: u64, at: BavoCursor) -> BavoMoved
    ensures { Plainly (plain_moved at) (λ a. Moves rule.previous first.now second.now snapshot (cursor_of at) a) result }
{
    plain_moved(
        at,
        cursor::db_iter::prev(first, second, snapshot, Cursor::from(at)),
    )
}
