// Presence of an entry, and where the value of a key stands: two questions that end in one node.
ghost use Rattle.image.specs.Refusals.{given, reading};
ghost use Rattle.table.specs.Presence.{Contains, ShowsRow};

use crate::entry_views::{Span, value_span};
use crate::key_types::{Kind, LookupKey};
use crate::memtable::{Lookup, get};
use crate::refusals::Refusal;
use crate::skipmap::OnEqual;
use crate::tested::Table;

// Whether an entry is held, with the looks that it took to tell. Both answers have looks, so the flag stands beside them.
#[derive(Clone, Copy)]
pub struct Presence {
    pub held: bool,
    pub looks: usize,
}

// Whether an entry of this key, number and type is held. Refusals 1, 2, 3, 4, 9. The type is a number, as in an addition.
pub fn contains(s: &[u8], key: &[u8], number: u64, kind: u8) -> Result<Presence, Refusal>
    ensures { Contains s.now key.now number kind result }
{
    let table = Table::open(s).ok_or(Refusal::BadImage)?;
    let kind = Kind::try_from(kind)?;
    let probe = LookupKey::of(key, number)?;
    let stands = table.first_not_passed(OnEqual::Stop, probe)?;
    let held = match stands.node {
        Some(node) if stands.equal => table.node_of(node)?.parts.kind == kind,
        _ => false,
    };
    Ok(Presence {
        held,
        looks: stands.looks,
    })
}

// Where the value of a key at a snapshot stands. It stands behind the header; where the key has no row it is the empty part at 0.
// Refusals 1, 3, 4, 9.
pub fn get_span(s: &[u8], key: &[u8], snapshot: u64) -> Result<Span, Refusal>
    ensures { ShowsRow s.now key.now snapshot result }
{
    let Lookup::Found { node, looks: _ } = get(s, key, snapshot)? else {
        return Ok(Span::EMPTY);
    };
    value_span(s, node)
}
