// Neighbours in the list: the first node that is not before a key and a number, the last one before them, and the first of all; in
// the crate get_greater_or_equal and get_next_smaller. A neighbour is named by its number and not read; nothing here writes.
ghost use Rattle.std.specs.Prelude.{◌≡◌};
ghost use Rattle.image.specs.Search.{to_go_down};
ghost use Rattle.table.specs.Skipmap.{mode_of};
ghost use Rattle.table.specs.Neighbours.{Links, stands_at, passed_at, first_at, Finds};

use crate::key_types::LookupKey;
use crate::nodes::HEAD_LINKS;
use crate::refusals::Refusal;
use crate::skipmap::{OnEqual, Spot};
use crate::tested::Table;
use crate::words::get_wide;

// A node, if there is one, whether it is equal to the probe, and the looks that it took to find it. `equal` stands beside the node: an
// enum of the two would be taken apart by every caller that asks for the node alone.
#[derive(Clone, Copy)]
pub(crate) struct Neighbour {
    pub node: Option<usize>,
    pub equal: bool,
    pub looks: usize,
}

// The node that a link names; 0 is none.
fn linked(link: usize) -> Option<usize>
    ensures { Links link result }
{
    if link < 1 { None } else { Some(link) }
}

impl<'a> Table<'a> {
    // The first node that a search does not pass; of one that stops on equality, the first at or after a key and a number.
    pub(crate) fn first_not_passed(
        self,
        mode: OnEqual,
        probe: LookupKey<'_>,
    ) -> Result<Neighbour, Refusal>
        ensures { Finds self.entry.bytes.now (stands_at self.entry.bytes.now (mode_of mode) probe.entry.key.now probe.entry.number.is) result }
    {
        let found = self.search(mode, probe)?;
        let (node, equal) = match found.spot {
            Spot::Hit(node) => (Some(node), true),
            Spot::Ends { before: _, after } => (linked(after), false),
        };
        Ok(Neighbour {
            node,
            equal,
            looks: found.looks,
        })
    }

    // The last node before a key and a number. Beside first_not_passed it takes the other end of the spot, and a hit is no answer.
    pub(crate) fn last_before(self, probe: LookupKey<'_>) -> Result<Neighbour, Refusal>
        ensures { Finds self.entry.bytes.now (passed_at self.entry.bytes.now to_go_down probe.entry.key.now probe.entry.number.is) result }
    {
        let found = self.search(OnEqual::GoDown, probe)?;
        let node = match found.spot {
            Spot::Hit(_) => None,
            Spot::Ends { before, after: _ } => linked(before),
        };
        Ok(Neighbour {
            node,
            equal: false,
            looks: found.looks,
        })
    }

    // The first node of all: one look at the head's lowest link.
    pub(crate) fn first_node(self) -> Result<Neighbour, Refusal>
        ensures { Finds self.entry.bytes.now (first_at self.entry.bytes.now) result }
    {
        let node = get_wide(self.bytes, HEAD_LINKS);
        if node > self.frame.count {
            return Err(Refusal::Damaged);
        }
        Ok(Neighbour {
            node: linked(node),
            equal: false,
            looks: 1,
        })
    }
}
