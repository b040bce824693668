// The views at the visible cursor.
ghost use Rattle.std.specs.Prelude.{◌≡◌};
ghost use Rattle.image.specs.EntryMoves.{key_view, value_view};
ghost use Rattle.cursor.specs.Rows.{Refuses};
ghost use Rattle.cursor.specs.RowSpans.{RowSpans};
ghost use Rattle.capi.specs.Plain.{Plainly};
ghost use Rattle.capi.specs.DbIter.{cursor_of};
ghost use Rattle.capi.specs.RowViews.{plain_row_view};

use crate::db_iter::{BavoCursor, side_number};
use crate::memtable::refusal_or_0;
use cursor::places::Cursor;
use cursor::row_views::{RowSpan, row_key_span, row_refusal, row_value_span};
use table::refusals::Refusal;

// A part of the first image (1) or of the second (2). Nowhere, and refused, there is none: 0, 0, 0.
#[repr(C)]
#[derive(Clone, Copy)]
pub struct BavoRowView {
    pub refusal: u32,
    pub table: u32,
    pub offset: usize,
    pub length: usize,
}

impl From<Result<Option<RowSpan>, Refusal>> for BavoRowView {
    ghost from_gives = { λ a r. r ≡ plain_row_view a };

    fn from(a: Result<Option<RowSpan>, Refusal>) -> BavoRowView {
        let (refusal, table, offset, length) = match a {
            Ok(None) => (0, 0, 0, 0),
            Ok(Some(part)) => (0, side_number(part.table), part.span.at, part.span.len),
            Err(q) => (q.number(), 0, 0, 0),
        };
        BavoRowView {
            refusal,
            table,
            offset,
            length,
        }
    }
}

// The key at a cursor. Refusals 1 (first table, then second), 10, 9.
pub fn bavo_row_key<'a>(first: &'a [u8], second: &'a [u8], at: BavoCursor) -> BavoRowView
    ensures { Plainly plain_row_view (λ a. RowSpans key_view first.now second.now (cursor_of at) a) result }
{
    BavoRowView::from(row_key_span(first, second, Cursor::from(at)))
}

// The value at a cursor; a deletion's is empty. Refusals 1 (first table, then second), 10, 9.
pub fn bavo_row_value<'a>(first: &'a [u8], second: &'a [u8], at: BavoCursor) -> BavoRowView
    ensures { Plainly plain_row_view (λ a. RowSpans value_view first.now second.now (cursor_of at) a) result }
{
    BavoRowView::from(row_value_span(first, second, Cursor::from(at)))
}

// The companion of the two.
pub fn bavo_row_refusal<'a>(first: &'a [u8], second: &'a [u8], at: BavoCursor) -> u32
    ensures { Refuses first.now second.now (cursor_of at) result }
{
    refusal_or_0(row_refusal(first, second, Cursor::from(at)))
}
