// What stands at the visible cursor: key and value of the node at its place. A span says where that is: which of the two lent images,
// offset and length; a view is the part that the span names, uncopied. Spans serve callers to whom no reference can be handed.
// No snapshot is asked for, so in sound tables additions never change what a stored cursor shows.
ghost use Rattle.std.specs.Prelude.{◌≡◌};
ghost use Rattle.image.specs.EntryMoves.{key_view, value_view};
ghost use Rattle.table.specs.EntryViews.{view_of};
ghost use Rattle.table.specs.Refusals.{refusal_number};
ghost use Rattle.cursor.specs.RowSpans.{row_span_as, part_bytes, RowSpanLies, RowSpans};
ghost use Rattle.cursor.specs.Rows.{ShowsKey, ShowsValue, Refuses};

use crate::places::{Cursor, Pair, Side};
use table::entry_views::{Shown, Span, entry_span};
use table::memtable_iter::EntryCursor;
use table::refusals::Refusal;

// A part of one of the two images. Of a deletion it is the empty part at 0 of its image.
#[derive(Clone, Copy)]
pub struct RowSpan {
    pub table: Side,
    pub span: Span,
}

impl<'a> Pair<'a> {
    // Where key or value of the row at a cursor stands, if it is not nowhere.
    fn row_span(self, at: Cursor, what: Shown) -> Result<Option<RowSpan>, Refusal>
        ensures { RowSpans (view_of what) self.entry.first.now self.entry.second.now at result }
    {
        if !self.headers_hold() {
            return Err(Refusal::BadImage);
        }
        let Cursor::On(p) = at else {
            return Ok(None);
        };
        let span = entry_span(self.image_of(p.table), EntryCursor::On(p.node), what)?;
        Ok(Some(RowSpan {
            table: p.table,
            span,
        }))
    }

    // The part of the first or of the second image that a span names; nowhere, and where it is refused, it is empty.
    fn part_of(self, span: Result<Option<RowSpan>, Refusal>) -> &'a [u8]
        requires { RowSpanLies self.first.now self.second.now span }
        ensures { result.now ≡ part_bytes self.entry.first.now self.entry.second.now (row_span_as span) }
    {
        let Ok(Some(part)) = span else {
            return &self.first[..0];
        };
        let image = self.image_of(part.table);
        &image[part.span.at..part.span.at + part.span.len]
    }
}

// Where the key of the row at a cursor stands. Refusals 1 (first table, then second), 10, 9.
pub fn row_key_span<'a>(
    first: &'a [u8],
    second: &'a [u8],
    at: Cursor,
) -> Result<Option<RowSpan>, Refusal>
    ensures { RowSpans key_view first.now second.now at result }
{
    Pair { first, second }.row_span(at, Shown::Key)
}

// Where the value of the row at a cursor stands; a deletion's is empty. Refusals 1 (first table, then second), 10, 9.
pub fn row_value_span<'a>(
    first: &'a [u8],
    second: &'a [u8],
    at: Cursor,
) -> Result<Option<RowSpan>, Refusal>
    ensures { RowSpans value_view first.now second.now at result }
{
    Pair { first, second }.row_span(at, Shown::Value)
}

// The key of the row at a cursor; nowhere, and where it is refused, it is empty.
pub fn row_key<'a>(first: &'a [u8], second: &'a [u8], at: Cursor) -> &'a [u8]
    ensures { ShowsKey first.now second.now at result.now }
{
    let pair = Pair { first, second };
    pair.part_of(pair.row_span(at, Shown::Key))
}

// The value of the row at a cursor; nowhere, of a deletion, and where it is refused, it is empty.
pub fn row_value<'a>(first: &'a [u8], second: &'a [u8], at: Cursor) -> &'a [u8]
    ensures { ShowsValue first.now second.now at result.now }
{
    let pair = Pair { first, second };
    pair.part_of(pair.row_span(at, Shown::Value))
}

// The refusal that the views get at a cursor, if they are refused. Refusals 1 (first table, then second), 10, 9.
pub fn row_refusal<'a>(first: &'a [u8], second: &'a [u8], at: Cursor) -> Option<Refusal>
    ensures { Refuses first.now second.now at (refusal_number result) }
{
    let pair = Pair { first, second };
    if !pair.headers_hold() {
        return Some(Refusal::BadImage);
    }
    let Cursor::On(p) = at else {
        return None;
    };
    pair.place_refusal(p)
}
