// Made by tools/moving from crates/cursor/src/walk.rt: its bodies, other contracts.
// The walk of the visible cursor: from a cut on, key after key over both tables, up to the first that has a row. It counts, for
// each table, the nodes of it that it meets, and would give damage past the table's count. Each key lies onward of the last, so no
// bytes that hold still get there: the count shows that the walk ends, and ends it when bytes change under it.
ghost use Rattle.moving.specs.Rows.{Counts, StepFits, SpentFits};

use crate::key_types::Kind;
use crate::merging_iter::Meeting;
use crate::places::{Pair, Place};
use crate::questions::{Cut, past, population};
use crate::refusals::Damage;

// A turn of a walk: it ends on a row, passes a key that has none, or finds no more keys. Three ways on, and only one of them ends the
// walk with a place, so no Option says it.
#[derive(Clone, Copy)]
pub(crate) enum Step {
    Done(Place),
    Pass(Meeting),
    End,
}

// How many nodes of each table may still be met; of each by itself, as a key may be met in one or in both.
#[derive(Clone, Copy)]
pub(crate) struct Left {
    pub first: usize,
    pub second: usize,
}

impl Left {
    // What is left after a key is passed, which counts against each table whose nearest key it was; none where a table has been
    // met too often.
    fn spend(self, m: Meeting) -> Option<Left>
        requires { Counts m }
        ensures { SpentFits self result }
    {
        Some(Left {
            first: self.first.checked_sub(usize::from(m.first))?,
            second: self.second.checked_sub(usize::from(m.second))?,
        })
    }
}

impl<'a> Pair<'a> {
    // One turn: the next key behind the cut, and its row.
    fn take_step(self, snapshot: u64, cut: Cut, key: &[u8]) -> Result<Step, Damage>
        ensures { StepFits result }
    {
        let Some(met) = self.nearest_key(cut, key)? else {
            return Ok(Step::End);
        };
        let Some(version) = self.newest_entry(self.key_at(met.place), snapshot)? else {
            return Ok(Step::Pass(met));
        };
        Ok(match version.kind {
            Kind::Value => Step::Done(version.place),
            Kind::Deletion => Step::Pass(met),
        })
    }

    // The turn from where the walk has come to: its start, or past the key of a place. Snapshot, cut and key are what a walk is asked;
    // the caller's key serves its first turn alone, so the three are no one value that goes from turn to turn.
    fn take_turn(
        self,
        snapshot: u64,
        cut: Cut,
        key: &[u8],
        reached: Option<Place>,
    ) -> Result<Step, Damage>
        ensures { StepFits result }
    {
        match reached {
            None => self.take_step(snapshot, cut, key),
            Some(p) => self.take_step(snapshot, past(cut), self.key_at(p)),
        }
    }

    // From the cut on, the first key that has a row, if there is one: the place of the entry that gives it.
    pub(crate) fn walk(self, snapshot: u64, cut: Cut, key: &[u8]) -> Result<Option<Place>, Damage> {
        let mut left = Left {
            first: population(self.first),
            second: population(self.second),
        };
        let mut reached = None;
        loop {
            match self.take_turn(snapshot, cut, key, reached)? {
                Step::End => return Ok(None),
                Step::Done(p) => return Ok(Some(p)),
                Step::Pass(met) => {
                    left = left.spend(met).ok_or(Damage)?;
                    reached = Some(met.place);
                }
            }
        }
    }
}
