// Whether an image is sound: one pass over its nodes in order of arrival, then one walk along its chains, all levels at once.
// The pass trusts the header alone. The walk follows the lowest chain, and carries for each level the node that it is to meet next.
ghost use Rattle.std.specs.Prelude.{◌≡◌, length};
ghost use Rattle.image.specs.Limits.{header_size};
ghost use Rattle.image.specs.Nodes.{count};
ghost use Rattle.image.specs.Check.{nodes_run, all_meet, threads, heads};
ghost use Rattle.table.specs.Check.{Checked, Whole, LinksInside, StepsTo, KeyInside, LastInside, last_before};

use crate::entries::Keyed;
use crate::nodes::{HEAD_LINKS, HEADER_SIZE, LEVELS, LINKS_AT};
use crate::tested::Table;
use crate::words::get_word;

// Whether each of these levels is to meet node x next; x is 0 at the end of the chains, as links in the image are.
fn all_meet(next: &[u32], x: u32) -> bool
    ensures { result ≡ all_meet next.now x (length next.now) }
{
    next.iter().all(|&link| link == x)
}

// What each level is to meet behind a node, or behind the head, whose links stand at a place: those links below the height, and above
// it what it was to meet before, so the whole array stands beside a height.
// It reads words in a row; read_links reads words at places. One function would take two closures.
fn step(s: &[u8], at: usize, next: [u32; 12], height: usize) -> [u32; 12]
    requires { LinksInside s.now at height }
    ensures { StepsTo s.now at next height result }
{
    let mut links = next;
    for l in 0..height {
        links[l] = get_word(s, at + 4 * l);
    }
    links
}

// Whether a node may follow the one met last along the lowest chain, if there is one: its entry comes after that one's.
fn may_follow(s: &[u8], last: Option<Keyed>, k: Keyed) -> bool
    requires { LastInside s.now last × KeyInside s.now k }
    ensures { result ≡ last_before s.now last k }
{
    match last {
        None => true,
        Some(before) => before.precedes(s, k),
    }
}

impl<'a> Table<'a> {
    // Whether the nodes run from the header to the first free byte, each whole and where its slot says.
    fn nodes_run(self) -> bool
        ensures { result ≡ nodes_run self.entry.bytes.now (count self.entry.bytes.now) 1 header_size }
    {
        let mut end = HEADER_SIZE;
        for i in 1..self.frame.count + 1 {
            let start = self.slot(i);
            if start != end {
                return false;
            }
            let Ok(node) = self.node_at(start) else {
                return false;
            };
            end = node.end;
        }
        end == self.frame.free
    }

    // Whether the lowest chain meets as many nodes as there are, in ascending order, and each level those of them that are tall
    // enough. What leads a node is read once more, and tested again: it may not be what the pass over the nodes saw.
    fn threads(self) -> bool
        requires { Whole self.bytes.now }
        ensures { result ≡ threads self.entry.bytes.now (count self.entry.bytes.now) 0 (heads self.entry.bytes.now) }
    {
        let n = self.frame.count;
        let mut next = step(self.bytes, HEAD_LINKS, [0; 12], LEVELS);
        let mut last = None;
        for _ in 0..n {
            let first = next[0];
            let x = first as usize;
            if x < 1 {
                return false;
            }
            if x > n {
                return false;
            }
            let Ok(lead) = self.lead_of(x) else {
                return false;
            };
            if !all_meet(&next[..lead.height], first) {
                return false;
            }
            if !may_follow(self.bytes, last, lead.keyed) {
                return false;
            }
            next = step(self.bytes, lead.start + LINKS_AT, next, lead.height);
            last = Some(lead.keyed);
        }
        all_meet(&next, 0)
    }
}

// Whether the image is sound. It takes any bytes, and a header that does not hold is a no.
pub fn check(s: &[u8]) -> bool
    ensures { Checked s.now result }
{
    let Some(table) = Table::open(s) else {
        return false;
    };
    table.nodes_run() && table.threads()
}
