// The search.
// At each level the links lead from the head through the nodes tall enough for it, in ascending order. Nothing here relies on
// that: on any bytes behind a good header a search ends after n + 12 looks at most. Nothing here writes.
ghost use Rattle.std.specs.Prelude.{◌≡◌, ◌≤◌};
ghost use Rattle.image.specs.Nodes.{links_at};
ghost use Rattle.image.specs.Search.{turn_by, meet};
ghost use Rattle.table.specs.Refusals.{read_as};
ghost use Rattle.table.specs.KeyTypes.{ord_of};
ghost use Rattle.table.specs.Skipmap.{mode_of, turn_is, LinksFrom, TurnLinks, Searches};

use crate::key_types::LookupKey;
use crate::nodes::{HEAD_LINKS, LEVELS, LINKS_AT};
use crate::refusals::Fault;
use crate::tested::Table;
use crate::words::get_wide;
use std::cmp::Ordering;

// What a search does at a node equal to its probe: one of three, which the definitions name too. It is kept as data: what each of them
// does is one arm of turn_by, and a closure in its place would carry its law through every search.
#[derive(Clone, Copy)]
pub(crate) enum OnEqual {
    Stop,
    GoDown,
    Pass,
}

// What a look says: pass the node, whose links stand at a place, stop at it, or go down.
#[derive(Clone, Copy)]
pub(crate) enum Turn {
    Onward(usize),
    Halt,
    Below,
}

// Passes a node, whose links stand at a place, while it is smaller, else goes down; on equality by the mode.
pub(crate) fn turn_by(mode: OnEqual, o: Ordering, links: usize) -> Turn
    ensures is { turn_is result ≡ turn_by (mode_of mode) (ord_of o) }
    ensures from { LinksFrom links result }
{
    match o {
        Ordering::Less => Turn::Onward(links),
        Ordering::Greater => Turn::Below,
        Ordering::Equal => match mode {
            OnEqual::Stop => Turn::Halt,
            OnEqual::GoDown => Turn::Below,
            OnEqual::Pass => Turn::Onward(links),
        },
    }
}

// Where a search ends: at a node equal to the probe, or between two nodes, each 0 where there is none, as links in the image are.
#[derive(Clone, Copy)]
pub(crate) enum Spot {
    Hit(usize),
    Ends { before: usize, after: usize },
}

// Where a search ends, the looks that it made, and at each level the place of the link that it went down from.
#[derive(Clone, Copy)]
pub(crate) struct Searched {
    pub spot: Spot,
    pub looks: usize,
    pub places: [usize; 12],
}

impl<'a> Table<'a> {
    // What the link at the place from says that names node x, or none, which is 0 as in the image; one that names a node too low for
    // the level is bad.
    fn meet_at(
        self,
        mode: OnEqual,
        probe: LookupKey<'_>,
        level: usize,
        from: usize,
        x: usize,
    ) -> Result<Turn, Fault>
        requires { x ≤ self.frame.count }
        ensures is { read_as turn_is result ≡ meet self.entry.bytes.now (mode_of mode) probe.entry.key.now probe.entry.number.is level from x }
        ensures links { TurnLinks (links_at self.entry.bytes.now x) result }
    {
        if x < 1 {
            return Ok(Turn::Below);
        }
        let lead = self.lead_of(x)?;
        if lead.height <= level {
            return Err(Fault { at: from });
        }
        let order = lead.keyed.lookup_key(self.bytes).compare(probe);
        Ok(turn_by(mode, order, lead.start + LINKS_AT))
    }

    // From the head's top level: passes a node while it is smaller, else goes down; stops on equality or below level 0. Each link
    // is read once, and so is what leads each node; the next link is reached from what is in hand.
    pub(crate) fn search(self, mode: OnEqual, probe: LookupKey<'_>) -> Result<Searched, Fault>
        ensures { Searches self.entry.bytes.now (mode_of mode) probe.entry.key.now probe.entry.number.is result }
    {
        let n = self.frame.count;
        let mut places = [0; 12];
        let mut before = 0;
        let mut links = HEAD_LINKS;
        let mut level = LEVELS - 1;
        for looks in 0..n + LEVELS {
            let place = links + 4 * level;
            let after = get_wide(self.bytes, place);
            if after > n {
                return Err(Fault { at: place });
            }
            match self.meet_at(mode, probe, level, place, after)? {
                Turn::Halt => {
                    return Ok(Searched {
                        spot: Spot::Hit(after),
                        looks: looks + 1,
                        places,
                    });
                }
                Turn::Onward(at) => {
                    before = after;
                    links = at;
                }
                Turn::Below => {
                    places[level] = place;
                    if level == 0 {
                        return Ok(Searched {
                            spot: Spot::Ends { before, after },
                            looks: looks + 1,
                            places,
                        });
                    }
                    level -= 1;
                }
            }
        }
        Err(Fault {
            at: links + 4 * level,
        })
    }
}
