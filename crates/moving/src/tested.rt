// Made by tools/moving from crates/table/src/tested.rt: its bodies, other contracts.
// Values that passed a test: a table in bytes whose header holds, and an entry within the limits. A ghost field says what was tested.
ghost use Rattle.std.specs.Prelude.{◌≤◌, length};
ghost use Rattle.moving.specs.Within.{Within};

use crate::key_types::{Kind, Number};

// Count and first free byte of an image whose header holds, as they were read once.
#[derive(Clone, Copy)]
pub struct Frame {
    pub count: usize,
    pub free: usize,
}

// The table in lent bytes whose header holds, with what was read of the header.
#[derive(Clone, Copy)]
pub(crate) struct Table<'a> {
    pub bytes: &'a [u8],
    pub frame: Frame,
    ghost within: { Within (length bytes.now) frame },
}

// An entry within the limits, which may be put into a table.
#[derive(Clone, Copy)]
pub(crate) struct Entry<'a> {
    pub key: &'a [u8],
    pub number: Number,
    pub kind: Kind,
    pub value: &'a [u8],
    ghost key_short: { length key.now ≤ 1024 },
    ghost value_short: { length value.now ≤ 4096 },
}
