// Made by tools/moving from crates/cursor/src/merging_iter.rt: its bodies, other contracts.
// What the two tables answer together: the answers of each are folded into one, in the fixed order of the tables. Of equal keys,
// and of equal numbers, the first table's stands.
ghost use Rattle.std.specs.Prelude.{◌≤◌};
ghost use Rattle.moving.specs.Answers.{LooksAtMost};
ghost use Rattle.moving.specs.Rows.{Counts, MeetingFits, NearestFits, PairLooks, PairFits};

use crate::key_types::Kind;
use crate::memtable::{Lookup, Newest, get};
use crate::nodes::header_holds;
use crate::places::{Pair, Place, Side};
use crate::questions::{Cut, before, near, newest};
use crate::refusals::{Damage, Refusal};

// A key that comes next: a place that has it, and which of the tables it is the nearest key of. Two flags, as there are two tables:
// neither follows from the place.
#[derive(Clone, Copy)]
pub(crate) struct Meeting {
    pub place: Place,
    pub first: bool,
    pub second: bool,
}

// A key met in one table.
fn met_at(side: Side, node: usize) -> Meeting
    ensures { Counts result }
{
    Meeting {
        place: Place { table: side, node },
        first: side == Side::First,
        second: side == Side::Second,
    }
}

// An entry of a key: its place and its type.
#[derive(Clone, Copy)]
pub(crate) struct Version {
    pub place: Place,
    pub kind: Kind,
}

// An entry of one table, which is given beside it, so this is no From.
fn version_in(side: Side, entry: Newest) -> Version {
    Version {
        place: Place {
            table: side,
            node: entry.node,
        },
        kind: entry.kind,
    }
}

impl<'a> Pair<'a> {
    // Of two keys the one that comes before the other; equal ones are met in both tables, at the first's place.
    fn nearer(self, cut: Cut, x: Meeting, y: Meeting) -> Meeting
        requires { Counts x × Counts y }
        ensures { Counts result }
    {
        let k = self.key_at(x.place);
        let l = self.key_at(y.place);
        if before(cut, l, k) {
            return y;
        }
        if before(cut, k, l) {
            return x;
        }
        Meeting {
            place: x.place,
            first: true,
            second: true,
        }
    }

    // The sooner of two keys that may be missing.
    fn sooner(self, cut: Cut, a: Option<Meeting>, b: Option<Meeting>) -> Option<Meeting>
        requires { MeetingFits a × MeetingFits b }
        ensures { MeetingFits result }
    {
        match (a, b) {
            (Some(x), Some(y)) => Some(self.nearer(cut, x, y)),
            (Some(x), None) => Some(x),
            (None, b) => b,
        }
    }

    // The key that comes next behind a cut, over both tables.
    pub(crate) fn nearest_key(self, cut: Cut, key: &[u8]) -> Result<Option<Meeting>, Damage>
        ensures { NearestFits result }
    {
        let a = near(self.first, cut, key)?;
        let b = near(self.second, cut, key)?;
        let a = a.map(|node| met_at(Side::First, node));
        let b = b.map(|node| met_at(Side::Second, node));
        Ok(self.sooner(cut, a, b))
    }

    // The newer of two entries that may be missing. What is compared differs from `sooner`, and a tie there has an answer of its own; one
    // function for both would take the choice as a closure, and the law of the choice with it.
    fn newer(self, a: Option<Version>, b: Option<Version>) -> Option<Version> {
        match (a, b) {
            (Some(x), Some(y)) if self.number_at(x.place) < self.number_at(y.place) => Some(y),
            (Some(x), _) => Some(x),
            (None, b) => b,
        }
    }

    // The newest entry of a key up to a snapshot, over both tables.
    pub(crate) fn newest_entry(self, key: &[u8], snapshot: u64) -> Result<Option<Version>, Damage> {
        let a = newest(self.first, key, snapshot)?;
        let b = newest(self.second, key, snapshot)?;
        let a = a.map(|entry| version_in(Side::First, entry));
        let b = b.map(|entry| version_in(Side::Second, entry));
        Ok(self.newer(a, b))
    }
}

// What a lookup in a pair answers, with the looks that it took over the tables asked.
#[derive(Clone, Copy)]
pub enum PairLookup {
    Found { place: Place, looks: usize },
    Deleted { looks: usize },
    Absent { looks: usize },
}

// One table's answer, with the looks that were taken before it; table and looks are given beside it, so this is no From.
fn told_by(side: Side, before: usize, a: Lookup) -> PairLookup
    requires { (before ≤ 4108) × LooksAtMost 4108 a }
    ensures { PairLooks 8216 result }
{
    match a {
        Lookup::Found { node, looks } => PairLookup::Found {
            place: Place { table: side, node },
            looks: before + looks,
        },
        Lookup::Deleted { looks } => PairLookup::Deleted {
            looks: before + looks,
        },
        Lookup::Absent { looks } => PairLookup::Absent {
            looks: before + looks,
        },
    }
}

// The newest entry of a key up to a snapshot in a pair: the first table is asked, the second only if the first says absent.
// Refusals 1 (first table, then second), 3, 4, 9.
pub fn get_pair(
    first: &[u8],
    second: &[u8],
    key: &[u8],
    snapshot: u64,
) -> Result<PairLookup, Refusal>
    ensures { PairFits 8216 result }
{
    if !header_holds(first) {
        return Err(Refusal::BadImage);
    }
    if !header_holds(second) {
        return Err(Refusal::BadImage);
    }
    let a = get(first, key, snapshot)?;
    let Lookup::Absent { looks } = a else {
        return Ok(told_by(Side::First, 0, a));
    };
    let b = get(second, key, snapshot)?;
    Ok(told_by(Side::Second, looks, b))
}
