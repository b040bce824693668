// Writing to an image: a fresh header, a node in the free part, links. What is written is decided before the first byte is.
ghost use Rattle.std.specs.Prelude.{◌≡◌, ℕ, ◌+◌, ◌*◌, ◌≤◌, length, get_or};
ghost use Rattle.image.specs.Words.{word, put_words};
ghost use Rattle.image.specs.Fresh.{fresh_image};
ghost use Rattle.image.specs.Limits.{header_size, max_image, levels};
ghost use Rattle.image.specs.Nodes.{size_of};
ghost use Rattle.image.specs.Add.{node_written, written};
ghost use Rattle.table.specs.Entries.{entry_is};
ghost use Rattle.table.specs.Insert.{PlacesInside, LinksRead, EntryFits, Sized, room_is, Insertable, Inserts};

use crate::nodes::{
    COUNT_AT, FREE_AT, HEAD_LINKS, HEADER_SIZE, LENGTH_AT, LEVELS, LEVELS_AT, LINKS_AT, MAX_NODES,
};
use crate::refusals::Refusal;
use crate::skipmap::{OnEqual, Spot};
use crate::tested::{Entry, Frame, Table};
use crate::words::{get_wide, put_word};

// Writes the links of a node, or of the head, one for each level from the lowest up, to a place and behind it. The level says the place,
// so the loop runs over levels, here and in the two loops below.
pub(crate) fn put_links(s: &mut [u8], at: usize, links: &[usize])
    requires { (length links.now ≤ levels) × (at + 4 * length links.now ≤ length s.old) }
    ensures { s.new ≡ put_words s.old (λ l. at + 4 * l) (λ l. get_or links.now l 0) (length links.now) }
{
    for l in 0..links.len() {
        put_word(s, at + 4 * l, links[l]);
    }
}

// Writes the header of an empty table: its length, no node, the first free byte behind the header, twelve levels and no links.
pub(crate) fn fresh_header(s: &mut [u8])
    requires { (header_size ≤ length s.old) × (length s.old ≤ max_image) }
    ensures { s.new ≡ fresh_image s.old }
{
    let len = s.len();
    put_word(s, LENGTH_AT, len);
    put_word(s, COUNT_AT, 0);
    put_word(s, FREE_AT, HEADER_SIZE);
    put_word(s, LEVELS_AT, LEVELS);
    put_links(s, HEAD_LINKS, &[0; LEVELS]);
}

// Lets the link at each place lead to a node. With put_links it shares a loop of one line; one function for both would take a closure
// for the place and one for the word.
pub(crate) fn lead_to(s: &mut [u8], places: &[usize], node: usize)
    requires { PlacesInside s.old places.now }
    ensures { s.new ≡ put_words s.old (λ l. get_or places.now l 0) (λ l. node) (length places.now) }
{
    for l in 0..places.len() {
        put_word(s, places[l], node);
    }
}

// Writes a node to the front of the free part: its height, which is how many links it has, length of its entry, links, entry.
pub(crate) fn put_node(free: &mut [u8], links: &[usize], entry: Entry<'_>)
    requires { (length links.now ≤ levels) × (size_of (length links.now) (entry_is entry) ≤ length free.old) }
    ensures { free.new ≡ node_written free.old 0 (length links.now) (entry_is entry.entry) (λ l. get_or links.now l 0) }
{
    put_word(free, 0, links.len());
    put_word(free, 4, entry.size());
    put_links(free, LINKS_AT, links);
    entry.put(free, LINKS_AT + 4 * links.len());
}

// What the links at these places hold, at the front of the answer.
pub(crate) fn read_links(s: &[u8], places: &[usize]) -> [usize; 12]
    requires { PlacesInside s.now places.now }
    ensures { LinksRead s.now places.now result }
{
    let mut links = [0usize; 12];
    for l in 0..places.len() {
        links[l] = get_wide(s, places[l]);
    }
    links
}

// Puts an entry in where a search ended: the first free byte, the node there, its slot, the links to it from the lowest up, and the
// count last, which is what makes it a node of the table. Its height is how many places there are. Answers the node's number.
pub(crate) fn put_in(s: &mut [u8], frame: Frame, places: &[usize], entry: Entry<'_>) -> usize
    requires { EntryFits s.old frame places.now (entry_is entry) }
    ensures { (result ≡ frame.count + 1) × (s.new ≡ written s.old frame.count frame.free (length places.now) (entry_is entry.entry) (λ l. word s.old (get_or places.now l 0)) (λ l. get_or places.now l 0)) }
{
    let links = read_links(s, places);
    let used = frame.free;
    let node = frame.count + 1;
    let end = used + LINKS_AT + 4 * places.len() + entry.size();
    let len = s.len();
    put_word(s, FREE_AT, end);
    put_node(&mut s[used..], &links[..places.len()], entry);
    put_word(s, len - 4 * node, used);
    lead_to(s, places, node);
    put_word(s, COUNT_AT, node);
    node
}

// Whether one more node of this height with this entry fits an image of this length.
pub(crate) fn has_room(len: usize, frame: Frame, entry: Entry<'_>, height: usize) -> bool
    requires { Sized len frame height }
    ensures { result ≡ room_is len frame (entry_is entry.entry) height }
{
    if frame.count >= MAX_NODES {
        return false;
    }
    let need = 12 + 4 * height + entry.size();
    need <= len - 4 * frame.count - frame.free
}

// Looks for the entry's key and number, and where they are not there puts the entry in; answers the new node's number. An equal
// entry is a duplicate, room or not. Refusals 9, 8, 7.
pub(crate) fn insert(
    s: &mut [u8],
    frame: Frame,
    entry: Entry<'_>,
    height: usize,
) -> Result<usize, Refusal>
    requires { Insertable s.old frame height }
    ensures { Inserts s.old (entry_is entry.entry) height result s.new }
{
    let found = Table { bytes: s, frame }.search(OnEqual::Stop, entry.lookup_key())?;
    if let Spot::Hit(_) = found.spot {
        return Err(Refusal::Duplicate);
    }
    if !has_room(s.len(), frame, entry, height) {
        return Err(Refusal::NoRoom);
    }
    Ok(put_in(s, frame, &found.places[..height], entry))
}
