// What stands at an entry cursor: key, value, number and type, and the refusal of asking for them. Where key and value stand is told
// as a span, offset and length in the image, which can be handed to any caller; a view is the part of the image that a span names,
// uncopied. Nowhere, and where it is refused, a view is empty.
ghost use Rattle.std.specs.Prelude.{◌≡◌};
ghost use Rattle.image.specs.EntryMoves.{on, viewed, key_view, value_view, number_view, kind_view, view_refusal};
ghost use Rattle.table.specs.Refusals.{refusal_number};
ghost use Rattle.table.specs.MemtableIter.{cursor_is};
ghost use Rattle.table.specs.EntryViews.{PartsOnIs, view_of, shown_number, span_as, SpanLies, Spans};

use crate::entries::Parts;
use crate::key_types::{Kind, Tag};
use crate::memtable_iter::{EntryCursor, open_at};
use crate::refusals::Refusal;

// The parts of the node at a cursor, none if nowhere. Refusals 1, 10, 9.
pub(crate) fn parts_on(s: &[u8], c: EntryCursor) -> Result<Option<Parts>, Refusal>
    ensures { PartsOnIs s.now (cursor_is c) result }
{
    let table = open_at(s, c)?;
    let EntryCursor::On(node) = c else {
        return Ok(None);
    };
    Ok(Some(table.node_of(node)?.parts))
}

// A part of the image. Nowhere, and of a deletion, it is the empty part at 0: C's calls answer two numbers and nothing beside them.
#[derive(Clone, Copy)]
pub struct Span {
    pub at: usize,
    pub len: usize,
}

impl Span {
    // What the promises of the two span calls fix where there is nothing to show.
    pub const EMPTY: Span = Span { at: 0, len: 0 };
}

// What a view shows of an entry.
#[derive(Clone, Copy)]
pub enum Shown {
    Key,
    Value,
}

// Where key or value at a cursor stands; a deletion's value is empty. Refusals 1, 10, 9.
pub fn entry_span(s: &[u8], c: EntryCursor, what: Shown) -> Result<Span, Refusal>
    ensures { Spans s.now (view_of what s.now (cursor_is c)) result }
{
    let Some(parts) = parts_on(s, c)? else {
        return Ok(Span::EMPTY);
    };
    Ok(match (what, parts.kind) {
        (Shown::Key, _) => Span {
            at: parts.keyed.key_at,
            len: parts.keyed.key_len,
        },
        (Shown::Value, Kind::Value) => Span {
            at: parts.value_at,
            len: parts.value_len,
        },
        (Shown::Value, Kind::Deletion) => Span::EMPTY,
    })
}

// Where the key at a cursor stands. Refusals 1, 10, 9.
pub fn entry_key_span(s: &[u8], c: EntryCursor) -> Result<Span, Refusal>
    ensures { Spans s.now (key_view s.now (cursor_is c)) result }
{
    entry_span(s, c, Shown::Key)
}

// Where the value at a cursor stands; a deletion's is empty. Refusals 1, 10, 9.
pub fn entry_value_span(s: &[u8], c: EntryCursor) -> Result<Span, Refusal>
    ensures { Spans s.now (value_view s.now (cursor_is c)) result }
{
    entry_span(s, c, Shown::Value)
}

// The part of the image that a span names.
fn part_of(s: &[u8], span: Result<Span, Refusal>) -> &[u8]
    requires { SpanLies s.now span }
    ensures { result.now ≡ viewed s.now (span_as span) }
{
    match span {
        Ok(part) => &s[part.at..part.at + part.len],
        Err(_) => &s[..0],
    }
}

// The key at a cursor. This and the two other parts of an image are a line each over their spans: the names are what callers look for.
pub fn entry_key(s: &[u8], c: EntryCursor) -> &[u8]
    ensures { result.now ≡ viewed s.now (key_view s.now (cursor_is c)) }
{
    part_of(s, entry_key_span(s, c))
}

// The value at a cursor; a deletion's is empty.
pub fn entry_value(s: &[u8], c: EntryCursor) -> &[u8]
    ensures { result.now ≡ viewed s.now (value_view s.now (cursor_is c)) }
{
    part_of(s, entry_value_span(s, c))
}

// The number at a cursor; nowhere, and where it is refused, its promise fixes 0: entry_refusal tells the two apart.
pub fn entry_number(s: &[u8], c: EntryCursor) -> u64
    ensures { result ≡ shown_number (number_view s.now (cursor_is c)) }
{
    match parts_on(s, c) {
        Ok(Some(parts)) => parts.keyed.tag.number().is,
        _ => 0,
    }
}

// The type at a cursor; nowhere, and where it is refused, its promise fixes 0. Beside entry_number it differs in the one arm that says something.
pub fn entry_kind(s: &[u8], c: EntryCursor) -> u8
    ensures { result ≡ shown_number (kind_view s.now (cursor_is c)) }
{
    match parts_on(s, c) {
        Ok(Some(parts)) => Tag::code(parts.kind),
        _ => 0,
    }
}

// The refusal that the four views get at a cursor, if they are refused.
pub fn entry_refusal(s: &[u8], c: EntryCursor) -> Option<Refusal>
    ensures { refusal_number result ≡ view_refusal s.now (cursor_is c) }
{
    parts_on(s, c).err()
}

// Where the value of a found node stands. Refusals 1, 10, 9.
pub fn value_span(s: &[u8], node: usize) -> Result<Span, Refusal>
    ensures { Spans s.now (value_view s.now (on node)) result }
{
    entry_value_span(s, EntryCursor::On(node))
}

// The value of a found node, a part of the image itself. Refusals 1, 10, 9.
pub fn value(s: &[u8], node: usize) -> &[u8]
    ensures { result.now ≡ viewed s.now (value_view s.now (on node)) }
{
    part_of(s, value_span(s, node))
}

// The refusal that asking for a node's value gets, if it is refused.
pub fn value_refusal(s: &[u8], node: usize) -> Option<Refusal>
    ensures { refusal_number result ≡ view_refusal s.now (on node) }
{
    entry_refusal(s, EntryCursor::On(node))
}
