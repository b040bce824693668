// The entry cursor of one table, and its views.
ghost use Rattle.std.specs.Prelude.{◌≡◌};
ghost use Rattle.image.specs.EntryMoves.{first, seek, next, previous, key_view, value_view, number_view, kind_view, view_refusal};
ghost use Rattle.table.specs.MemtableIter.{cursor_is, MovesEntry};
ghost use Rattle.table.specs.EntryViews.{shown_number};
ghost use Rattle.table.specs.EntryViews.{Spans};
ghost use Rattle.capi.specs.Plain.{Plainly};
ghost use Rattle.capi.specs.Memtable.{plain_view};
ghost use Rattle.capi.specs.EntryIter.{entry_cursor_of, plain_entry_moved};

use crate::memtable::{BavoView, refusal_or_0};
use table::entry_views::{
    entry_key_span, entry_kind, entry_number, entry_refusal, entry_value_span,
};
use table::memtable_iter::{EntryCursor, Stays, entry_first, entry_next, entry_prev, entry_seek};

// An entry cursor: 0 nowhere, 1 on the node.
#[repr(C)]
#[derive(Clone, Copy)]
pub struct BavoEntryCursor {
    pub on: u32,
    pub node: usize,
}

// The cursor that is meant; a number above 1 is on node 0, which no table has.
impl From<BavoEntryCursor> for EntryCursor {
    ghost from_gives = { λ at c. c ≡ entry_cursor_of at };

    fn from(at: BavoEntryCursor) -> EntryCursor {
        match at.on {
            0 => EntryCursor::Nowhere,
            1 => EntryCursor::On(at.node),
            _ => EntryCursor::On(0),
        }
    }
}

// Where a move leads; a refused one hands back the cursor exactly as it was handed.
#[repr(C)]
#[derive(Clone, Copy)]
pub struct BavoEntryMoved {
    pub refusal: u32,
    pub on: u32,
    pub node: usize,
}

// A move's answer as a struct; a refused one has the numbers of the cursor as they were, so this is no From. The header has a struct
// for each cursor.
fn plain_entry_moved(
    at: BavoEntryCursor,
    a: Result<EntryCursor, Stays<EntryCursor>>,
) -> BavoEntryMoved
    ensures { result ≡ plain_entry_moved at a }
{
    match a {
        Ok(EntryCursor::Nowhere) => BavoEntryMoved {
            refusal: 0,
            on: 0,
            node: 0,
        },
        Ok(EntryCursor::On(node)) => BavoEntryMoved {
            refusal: 0,
            on: 1,
            node,
        },
        Err(stays) => BavoEntryMoved {
            refusal: stays.why.number(),
            on: at.on,
            node: at.node,
        },
    }
}

// To the first entry. Refusals 1, 10, 9.
pub fn bavo_entry_first(image: &[u8], at: BavoEntryCursor) -> BavoEntryMoved
    ensures { Plainly (plain_entry_moved at) (λ a. MovesEntry image.now first (entry_cursor_of at) a) result }
{
    plain_entry_moved(at, entry_first(image, EntryCursor::from(at)))
}

// To the first entry at or after a key and a number. Refusals 1, 10, 3, 4, 9.
pub fn bavo_entry_seek(image: &[u8], at: BavoEntryCursor, key: &[u8], number: u64) -> BavoEntryMoved
    ensures { Plainly (plain_entry_moved at) (λ a. MovesEntry image.now (seek key.now number) (entry_cursor_of at) a) result }
{
    plain_entry_moved(at, entry_seek(image, EntryCursor::from(at), key, number))
}

// To the next entry. Refusals 1, 10, 9.
pub fn bavo_entry_next(image: &[u8], at: BavoEntryCursor) -> BavoEntryMoved
    ensures { Plainly (plain_entry_moved at) (λ a. MovesEntry image.now next (entry_cursor_of at) a) result }
{
    plain_entry_moved(at, entry_next(image, EntryCursor::from(at)))
}

// To the entry before. Refusals 1, 10, 9.
pub fn bavo_entry_prev(image: &[u8], at: BavoEntryCursor) -> BavoEntryMoved
    ensures { Plainly (plain_entry_moved at) (λ a. MovesEntry image.now previous (entry_cursor_of at) a) result }
{
    plain_entry_moved(at, entry_prev(image, EntryCursor::from(at)))
}

// The key at a cursor. Refusals 1, 10, 9.
pub fn bavo_entry_key(image: &[u8], at: BavoEntryCursor) -> BavoView
    ensures { Plainly plain_view (λ a. Spans image.now (key_view image.now (cursor_is (entry_cursor_of at))) a) result }
{
    BavoView::from(entry_key_span(image, EntryCursor::from(at)))
}

// The value at a cursor; a deletion's is empty. Refusals 1, 10, 9.
pub fn bavo_entry_value(image: &[u8], at: BavoEntryCursor) -> BavoView
    ensures { Plainly plain_view (λ a. Spans image.now (value_view image.now (cursor_is (entry_cursor_of at))) a) result }
{
    BavoView::from(entry_value_span(image, EntryCursor::from(at)))
}

// The number at a cursor; nowhere, and where it is refused, 0.
pub fn bavo_entry_number(image: &[u8], at: BavoEntryCursor) -> u64
    ensures { result ≡ shown_number (number_view image.now (cursor_is (entry_cursor_of at))) }
{
    entry_number(image, EntryCursor::from(at))
}

// The type at a cursor; nowhere, and where it is refused, 0.
pub fn bavo_entry_kind(image: &[u8], at: BavoEntryCursor) -> u8
    ensures { result ≡ shown_number (kind_view image.now (cursor_is (entry_cursor_of at))) }
{
    entry_kind(image, EntryCursor::from(at))
}

// The companion of the four views.
pub fn bavo_entry_refusal(image: &[u8], at: BavoEntryCursor) -> u32
    ensures { result ≡ view_refusal image.now (cursor_is (entry_cursor_of at)) }
{
    refusal_or_0(entry_refusal(image, EntryCursor::from(at)))
}
