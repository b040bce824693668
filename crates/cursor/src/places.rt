// Places in two tables: which of the two, and the number of a node of it. What stands at a place is asked of its table.
ghost use Rattle.std.specs.Prelude.{◌≡◌};
ghost use Rattle.rule.specs.Lists.{both};
ghost use Rattle.image.specs.Sound.{header_holds};
ghost use Rattle.table.specs.Refusals.{refusal_number};
ghost use Rattle.cursor.specs.Places.{image_of, key_at, refusal_at};
ghost use Rattle.cursor.specs.Merging.{number_at};

use table::entry_views::{entry_key, entry_number, entry_refusal};
use table::memtable_iter::EntryCursor;
use table::nodes::header_holds;
use table::refusals::Refusal;

// Which of the two tables: there are two and no more, so this is no index into a list of them. It is data, which a place carries.
#[derive(Clone, Copy, Debug, PartialEq, Eq)]
pub enum Side {
    First,
    Second,
}

// A node of one of them.
#[derive(Clone, Copy, Debug, PartialEq, Eq)]
pub struct Place {
    pub table: Side,
    pub node: usize,
}

// Nowhere, or on a place: an enum of its own, since None would not say nowhere; its form is fixed (docs/TRACE.md, Forms).
#[derive(Clone, Copy, Debug, PartialEq, Eq)]
pub enum Cursor {
    Nowhere,
    On(Place),
}

// Two lent images in their fixed order, for the functions behind the calls. A call takes the two slices, as C's does.
#[derive(Clone, Copy)]
pub(crate) struct Pair<'a> {
    pub first: &'a [u8],
    pub second: &'a [u8],
}

impl<'a> Pair<'a> {
    // The image of a table; what is asked of a side takes one arm for each.
    pub(crate) fn image_of(self, side: Side) -> &'a [u8]
        ensures { result.now ≡ image_of side self.entry.first.now self.entry.second.now }
    {
        match side {
            Side::First => self.first,
            Side::Second => self.second,
        }
    }

    // Whether the headers of both tables hold.
    pub(crate) fn headers_hold(self) -> bool
        ensures { result ≡ both (header_holds self.entry.first.now) (header_holds self.entry.second.now) }
    {
        header_holds(self.first) && header_holds(self.second)
    }

    // The key at a place, a part of whichever image holds it; of a node that cannot be read it is empty.
    pub(crate) fn key_at(self, p: Place) -> &'a [u8]
        ensures { result.now ≡ key_at self.entry.first.now self.entry.second.now p }
    {
        entry_key(self.image_of(p.table), EntryCursor::On(p.node))
    }

    // The number at a place; of a node that cannot be read it is 0, and none is asked for. Each of these three is one question to a table.
    pub(crate) fn number_at(self, p: Place) -> u64
        ensures { result ≡ number_at self.entry.first.now self.entry.second.now p }
    {
        entry_number(self.image_of(p.table), EntryCursor::On(p.node))
    }

    // The refusal of the views at a place, if they are refused.
    pub(crate) fn place_refusal(self, p: Place) -> Option<Refusal>
        ensures { refusal_number result ≡ refusal_at self.entry.first.now self.entry.second.now p }
    {
        entry_refusal(self.image_of(p.table), EntryCursor::On(p.node))
    }
}
