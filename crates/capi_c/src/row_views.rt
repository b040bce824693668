// The views at the visible cursor.
ghost use Rattle.image.specs.EntryMoves.{key_view, value_view};
ghost use Rattle.cursor.specs.Rows.{Refuses};
ghost use Rattle.cursor.specs.RowSpans.{RowSpans};
ghost use Rattle.capi.specs.Plain.{Plainly};
ghost use Rattle.capi.specs.DbIter.{cursor_of};
ghost use Rattle.capi.specs.RowViews.{plain_row_view};

use capi::db_iter::BavoCursor;
use capi::row_views::BavoRowView;

// The key at a cursor. Refusals 1 (first table, then second), 10, 9.
#[unsafe(no_mangle)]
pub extern "C" fn bavo_row_key<'a>(first: &'a [u8], second: &'a [u8], at: BavoCursor) -> BavoRowView
    ensures { Plainly plain_row_view (λ a. RowSpans key_view first.now second.now (cursor_of at) a) result }
{
    capi::row_views::bavo_row_key(first, second, at)
}

// The value at a cursor; a deletion's is empty. Refusals 1 (first table, then second), 10, 9.
#[unsafe(no_mangle)]
pub extern "C" fn bavo_row_value<'a>(
    first: &'a [u8],
    second: &'a [u8],
    at: BavoCursor,
) -> BavoRowView
    ensures { Plainly plain_row_view (λ a. RowSpans value_view first.now second.now (cursor_of at) a) result }
{
    capi::row_views::bavo_row_value(first, second, at)
}

// The companion of the two.
#[unsafe(no_mangle)]
pub extern "C" fn bavo_row_refusal<'a>(first: &'a [u8], second: &'a [u8], at: BavoCursor) -> u32
    ensures { Refuses first.now second.now (cursor_of at) result }
{
    capi::row_views::bavo_row_refusal(first, second, at)
}
