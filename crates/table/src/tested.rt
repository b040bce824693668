// Values that passed a test: a table in bytes whose header holds, and an entry within the limits. A ghost field says what was tested.
ghost use Rattle.image.specs.Entries.{Legal};
ghost use Rattle.table.specs.KeyTypes.{code_of};
ghost use Rattle.table.specs.Framed.{Framed};

use crate::key_types::{Kind, Number};

// Count and first free byte of an image whose header holds, as they were read once.
#[derive(Clone, Copy)]
pub struct Frame {
    pub count: usize,
    pub free: usize,
}

// The table in lent bytes whose header holds, with what was read of the header.
#[derive(Clone, Copy)]
pub(crate) struct Table<'a> {
    pub bytes: &'a [u8],
    pub frame: Frame,
    ghost framed: { Framed bytes.now frame },
}

// An entry within the limits, which may be put into a table.
#[derive(Clone, Copy)]
pub(crate) struct Entry<'a> {
    pub key: &'a [u8],
    pub number: Number,
    pub kind: Kind,
    pub value: &'a [u8],
    ghost legal: { Legal (record { key = key.now; number = number.is; kind = code_of kind; value = value.now }) },
}
