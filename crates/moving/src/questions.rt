// Made by tools/moving from crates/table/src/questions.rt: its bodies, other contracts.
// What the layer above asks of one table: how many nodes it has, the nearest key behind a cut, the newest entry of a key, and the
// order of keys.
// None of it asks anything of its caller: a bad header is damage, like any other fault that is met. Nothing here writes.
ghost use Rattle.std.specs.Prelude.{◌≤◌};
ghost use Rattle.moving.specs.Neighbours.{NeighbourFits};

use crate::key_types::{LookupKey, Number, compare_keys};
use crate::memtable::Newest;
use crate::neighbours::Neighbour;
use crate::refusals::{Damage, Refusal};
use crate::skipmap::OnEqual;
use crate::tested::Table;

// A cut at a key: upward every key, the keys from it on or those above it; downward the keys below it. It is data that a walk carries and
// changes, and each question answers it in an arm of one line; a closure for each cut would carry its order and laws along.
#[derive(Clone, Copy)]
pub enum Cut {
    All,
    From,
    Above,
    Below,
}

// The cut just past a key, on the same way.
pub fn past(cut: Cut) -> Cut {
    match cut {
        Cut::All | Cut::From | Cut::Above => Cut::Above,
        Cut::Below => Cut::Below,
    }
}

// Whether the key a comes before the key b on the way of a cut.
pub fn before(cut: Cut, a: &[u8], b: &[u8]) -> bool {
    match cut {
        Cut::All | Cut::From | Cut::Above => compare_keys(a, b).is_lt(),
        Cut::Below => compare_keys(b, a).is_lt(),
    }
}

// How many nodes the table has; none if its header does not hold, so that a walk counts down from it.
pub fn population(s: &[u8]) -> usize
    ensures { result ≤ 4096 }
{
    match Table::open(s) {
        Some(table) => table.frame.count,
        None => 0,
    }
}

impl<'a> Table<'a> {
    // The neighbour behind a cut: upward the first node that a search does not pass, downward the last that it passes.
    fn behind(self, cut: Cut, key: &[u8]) -> Result<Neighbour, Refusal>
        ensures { NeighbourFits self.entry.frame.count result }
    {
        let newest = LookupKey {
            key,
            number: Number { is: Number::MAX },
        };
        let oldest = LookupKey {
            key,
            number: Number { is: 0 },
        };
        match cut {
            Cut::All => self.first_node(),
            Cut::From => self.first_not_passed(OnEqual::Stop, newest),
            Cut::Above => self.first_not_passed(OnEqual::Pass, oldest),
            Cut::Below => self.last_before(newest),
        }
    }
}

// A node with the key that comes next behind a cut, if there is one. It can be read whole.
pub fn near(s: &[u8], cut: Cut, key: &[u8]) -> Result<Option<usize>, Damage> {
    let table = Table::open(s).ok_or(Damage)?;
    let Ok(neighbour) = table.behind(cut, key) else {
        return Err(Damage);
    };
    table.land(neighbour.node).map_err(|_| Damage)
}

// The newest entry of a key up to a number, if there is one.
pub fn newest(s: &[u8], key: &[u8], number: u64) -> Result<Option<Newest>, Damage> {
    let table = Table::open(s).ok_or(Damage)?;
    let probe = LookupKey {
        key,
        number: Number { is: number },
    };
    let Ok(stands) = table.first_not_passed(OnEqual::Stop, probe) else {
        return Err(Damage);
    };
    table.said_at(key, stands.node).map_err(|_| Damage)
}
