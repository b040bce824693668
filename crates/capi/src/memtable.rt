// The calls on one table.
ghost use Rattle.std.specs.Prelude.{◌≡◌};
ghost use Rattle.image.specs.EntryMoves.{on, value_view, view_refusal};
ghost use Rattle.table.specs.Entries.{entry};
ghost use Rattle.table.specs.Memtable.{Freshens, Adds, Gets};
ghost use Rattle.table.specs.Presence.{Contains, ShowsRow};
ghost use Rattle.table.specs.Check.{Checked};
ghost use Rattle.table.specs.EntryViews.{Spans};
ghost use Rattle.table.specs.Refusals.{refusal_number};
ghost use Rattle.capi.specs.Plain.{Plainly};
ghost use Rattle.capi.specs.Memtable.{plain_freshened, plain_added, plain_presence, plain_lookup, plain_view};

use table::check::check;
use table::entry_views::{Span, value_refusal, value_span};
use table::memtable::{Lookup, add, fresh, get};
use table::presence::{Presence, contains, get_span};
use table::refusals::Refusal;

// The number of a refusal, or 0.
pub(crate) fn refusal_or_0(refusal: Option<Refusal>) -> u32
    ensures { result ≡ refusal_number refusal }
{
    refusal.map_or(0, |q| q.number())
}

// Makes an empty table of the image. Refusal 1.
pub fn bavo_fresh(image: &mut [u8]) -> u32
    ensures { Plainly plain_freshened (λ a. Freshens image.old a image.new) result }
{
    refusal_or_0(fresh(image).err())
}

// What an addition answers; refused, the node is 0.
#[repr(C)]
#[derive(Clone, Copy)]
pub struct BavoAdded {
    pub refusal: u32,
    pub node: usize,
}

impl From<Result<usize, Refusal>> for BavoAdded {
    ghost from_gives = { λ a r. r ≡ plain_added a };

    fn from(a: Result<usize, Refusal>) -> BavoAdded {
        match a {
            Ok(node) => BavoAdded { refusal: 0, node },
            Err(q) => BavoAdded {
                refusal: q.number(),
                node: 0,
            },
        }
    }
}

// Adds an entry in a node of the given height. Refusals 1, 2, 3, 4, 5, 6, then 9 or 8, then 7.
pub fn bavo_add(
    image: &mut [u8],
    key: &[u8],
    number: u64,
    kind: u8,
    value: &[u8],
    height: usize,
) -> BavoAdded
    ensures { Plainly plain_added (λ a. Adds image.old (entry key.now number kind value.now) height a image.new) result }
{
    BavoAdded::from(add(image, key, number, kind, value, height))
}

// Whether the image is sound.
pub fn bavo_check(image: &[u8]) -> bool
    ensures { Checked image.now result }
{
    check(image)
}

// Whether an entry is held: 1, or 0.
#[repr(C)]
#[derive(Clone, Copy)]
pub struct BavoPresence {
    pub refusal: u32,
    pub held: u32,
    pub looks: usize,
}

impl From<Result<Presence, Refusal>> for BavoPresence {
    ghost from_gives = { λ a r. r ≡ plain_presence a };

    fn from(a: Result<Presence, Refusal>) -> BavoPresence {
        match a {
            Ok(presence) => BavoPresence {
                refusal: 0,
                held: u32::from(presence.held),
                looks: presence.looks,
            },
            Err(q) => BavoPresence {
                refusal: q.number(),
                held: 0,
                looks: 0,
            },
        }
    }
}

// Whether an entry of this key, number and type is held. Refusals 1, 2, 3, 4, 9.
pub fn bavo_contains(image: &[u8], key: &[u8], number: u64, kind: u8) -> BavoPresence
    ensures { Plainly plain_presence (λ a. Contains image.now key.now number kind a) result }
{
    BavoPresence::from(contains(image, key, number, kind))
}

// What a lookup answers: 0 absent, 1 found at the node, 2 deleted.
#[repr(C)]
#[derive(Clone, Copy)]
pub struct BavoLookup {
    pub refusal: u32,
    pub answer: u32,
    pub node: usize,
    pub looks: usize,
}

impl From<Result<Lookup, Refusal>> for BavoLookup {
    ghost from_gives = { λ a r. r ≡ plain_lookup a };

    fn from(a: Result<Lookup, Refusal>) -> BavoLookup {
        let (refusal, answer, node, looks) = match a {
            Ok(Lookup::Found { node, looks }) => (0, 1, node, looks),
            Ok(Lookup::Deleted { looks }) => (0, 2, 0, looks),
            Ok(Lookup::Absent { looks }) => (0, 0, 0, looks),
            Err(q) => (q.number(), 0, 0, 0),
        };
        BavoLookup {
            refusal,
            answer,
            node,
            looks,
        }
    }
}

// The newest entry of a key up to a snapshot. Refusals 1, 3, 4, 9.
pub fn bavo_get(image: &[u8], key: &[u8], snapshot: u64) -> BavoLookup
    ensures { Plainly plain_lookup (λ a. Gets image.now key.now snapshot a) result }
{
    BavoLookup::from(get(image, key, snapshot))
}

// A part of the image; refused, nowhere, without a row and of a deletion's value it is the empty part at 0.
#[repr(C)]
#[derive(Clone, Copy)]
pub struct BavoView {
    pub refusal: u32,
    pub offset: usize,
    pub length: usize,
}

impl From<Result<Span, Refusal>> for BavoView {
    ghost from_gives = { λ a r. r ≡ plain_view a };

    fn from(a: Result<Span, Refusal>) -> BavoView {
        match a {
            Ok(span) => BavoView {
                refusal: 0,
                offset: span.at,
                length: span.len,
            },
            Err(q) => BavoView {
                refusal: q.number(),
                offset: 0,
                length: 0,
            },
        }
    }
}

// The value of a found node. Refusals 1, 10, 9.
pub fn bavo_value(image: &[u8], node: usize) -> BavoView
    ensures { Plainly plain_view (λ a. Spans image.now (value_view image.now (on node)) a) result }
{
    BavoView::from(value_span(image, node))
}

// Its companion.
pub fn bavo_value_refusal(image: &[u8], node: usize) -> u32
    ensures { result ≡ view_refusal image.now (on node) }
{
    refusal_or_0(value_refusal(image, node))
}

// The value of a key at a snapshot, in one call. A value, an empty one too, stands behind the header; where the key has no row it
// is the empty part at 0. Refusals 1, 3, 4, 9.
pub fn bavo_get_value(image: &[u8], key: &[u8], snapshot: u64) -> BavoView
    ensures { Plainly plain_view (λ a. ShowsRow image.now key.now snapshot a) result }
{
    BavoView::from(get_span(image, key, snapshot))
}
