// The entry cursor of one table, and its views.
ghost use Rattle.std.specs.Prelude.{◌≡◌};
ghost use Rattle.image.specs.EntryMoves.{first, seek, next, previous, key_view, value_view, number_view, kind_view, view_refusal};
ghost use Rattle.table.specs.MemtableIter.{cursor_is, MovesEntry};
ghost use Rattle.table.specs.EntryViews.{shown_number};
ghost use Rattle.table.specs.EntryViews.{Spans};
ghost use Rattle.capi.specs.Plain.{Plainly};
ghost use Rattle.capi.specs.Memtable.{plain_view};
ghost use Rattle.capi.specs.EntryIter.{entry_cursor_of, plain_entry_moved};

use capi::entry_iter::{BavoEntryCursor, BavoEntryMoved};
use capi::memtable::BavoView;

// To the first entry. Refusals 1, 10, 9.
#[unsafe(no_mangle)]
pub extern "C" fn bavo_entry_first(image: &[u8], at: BavoEntryCursor) -> BavoEntryMoved
    ensures { Plainly (plain_entry_moved at) (λ a. MovesEntry image.now first (entry_cursor_of at) a) result }
{
    capi::entry_iter::bavo_entry_first(image, at)
}

// To the first entry at or after a key and a number. Refusals 1, 10, 3, 4, 9.
#[unsafe(no_mangle)]
pub extern "C" fn bavo_entry_seek(
    image: &[u8],
    at: BavoEntryCursor,
    key: &[u8],
    number: u64,
) -> BavoEntryMoved
    ensures { Plainly (plain_entry_moved at) (λ a. MovesEntry image.now (seek key.now number) (entry_cursor_of at) a) result }
{
    capi::entry_iter::bavo_entry_seek(image, at, key, number)
}

// To the next entry. Refusals 1, 10, 9.
#[unsafe(no_mangle)]
pub extern "C" fn bavo_entry_next(image: &[u8], at: BavoEntryCursor) -> BavoEntryMoved
    ensures { Plainly (plain_entry_moved at) (λ a. MovesEntry image.now next (entry_cursor_of at) a) result }
{
    capi::entry_iter::bavo_entry_next(image, at)
}

// To the entry before. Refusals 1, 10, 9.
#[unsafe(no_mangle)]
pub extern "C" fn bavo_entry_prev(image: &[u8], at: BavoEntryCursor) -> BavoEntryMoved
    ensures { Plainly (plain_entry_moved at) (λ a. MovesEntry image.now previous (entry_cursor_of at) a) result }
{
    capi::entry_iter::bavo_entry_prev(image, at)
}

// The key at a cursor. Refusals 1, 10, 9.
#[unsafe(no_mangle)]
pub extern "C" fn bavo_entry_key(image: &[u8], at: BavoEntryCursor) -> BavoView
    ensures { Plainly plain_view (λ a. Spans image.now (key_view image.now (cursor_is (entry_cursor_of at))) a) result }
{
    capi::entry_iter::bavo_entry_key(image, at)
}

// The value at a cursor; a deletion's is empty. Refusals 1, 10, 9.
#[unsafe(no_mangle)]
pub extern "C" fn bavo_entry_value(image: &[u8], at: BavoEntryCursor) -> BavoView
    ensures { Plainly plain_view (λ a. Spans image.now (value_view image.now (cursor_is (entry_cursor_of at))) a) result }
{
    capi::entry_iter::bavo_entry_value(image, at)
}

// The number at a cursor; nowhere, and where it is refused, 0.
#[unsafe(no_mangle)]
pub extern "C" fn bavo_entry_number(image: &[u8], at: BavoEntryCursor) -> u64
    ensures { result ≡ shown_number (number_view image.now (cursor_is (entry_cursor_of at))) }
{
    capi::entry_iter::bavo_entry_number(image, at)
}

// The type at a cursor; nowhere, and where it is refused, 0.
#[unsafe(no_mangle)]
pub extern "C" fn bavo_entry_kind(image: &[u8], at: BavoEntryCursor) -> u8
    ensures { result ≡ shown_number (kind_view image.now (cursor_is (entry_cursor_of at))) }
{
    capi::entry_iter::bavo_entry_kind(image, at)
}

// The companion of the four views.
#[unsafe(no_mangle)]
pub extern "C" fn bavo_entry_refusal(image: &[u8], at: BavoEntryCursor) -> u32
    ensures { result ≡ view_refusal image.now (cursor_is (entry_cursor_of at)) }
{
    capi::entry_iter::bavo_entry_refusal(image, at)
}
