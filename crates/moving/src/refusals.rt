// Made by tools/moving from crates/table/src/refusals.rt: its bodies, other contracts.
// Why a call is refused, and where a byte is at fault.
use std::error::Error;
use std::fmt;

#[derive(Clone, Copy, Debug, PartialEq, Eq)]
pub enum Refusal {
    // Slice length or header field out of its limits.
    BadImage,
    // Type above 1.
    BadKind,
    // Number or snapshot above the limit.
    BadNumber,
    // Key too long.
    LongKey,
    // Value too long.
    LongValue,
    // Height not 1 to 12.
    BadHeight,
    // No room for one more node.
    NoRoom,
    // An entry of this key and number is in this table.
    Duplicate,
    // Damage was met; never on a sound image.
    Damaged,
    // A cursor or a found node names no node of its table.
    NoNode,
}

impl Refusal {
    // The number of a refusal, 1 to 10.
    pub fn number(self) -> u32 {
        self as u32 + 1
    }
}

impl fmt::Display for Refusal {
    fn fmt<W: fmt::Write>(&self, f: &mut fmt::Formatter<W>) -> fmt::Result {
        f.write_str(match self {
            Refusal::BadImage => "no image",
            Refusal::BadKind => "type above 1",
            Refusal::BadNumber => "number above the limit",
            Refusal::LongKey => "key too long",
            Refusal::LongValue => "value too long",
            Refusal::BadHeight => "height not 1 to 12",
            Refusal::NoRoom => "no room",
            Refusal::Duplicate => "key and number are there",
            Refusal::Damaged => "damage was met",
            Refusal::NoNode => "no node of the table",
        })
    }
}

impl Error for Refusal {}

// Damage was met, and nothing else can refuse the question.
#[derive(Clone, Copy, Debug, PartialEq, Eq)]
pub struct Damage;

impl From<Damage> for Refusal {
    fn from(_damage: Damage) -> Refusal {
        Refusal::Damaged
    }
}

// The place of a byte at fault.
#[derive(Clone, Copy)]
pub(crate) struct Fault {
    pub at: usize,
}

// A call that meets a byte at fault is refused for damage.
impl From<Fault> for Refusal {
    fn from(_fault: Fault) -> Refusal {
        Refusal::Damaged
    }
}
