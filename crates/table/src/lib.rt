// A table: a skip list of entries in one slice of bytes.
#![tactic(auto)]

pub mod words; // words.rt: the words of an image, and bytes written to it
pub mod key_types; // key_types.rt: number, tag, lengths and order
pub mod tested; // tested.rt: values that passed a test
pub mod entries; // entries.rt: the bytes of an entry
pub mod insert; // insert.rt: writing to an image
pub mod nodes; // nodes.rt: header and nodes of an image
pub mod skipmap; // skipmap.rt: the search
pub mod neighbours; // neighbours.rt: neighbours of a key and a number
pub mod refusals; // refusals.rt: why a call is refused
pub mod memtable; // memtable.rt: the calls on one table
pub mod memtable_iter; // memtable_iter.rt: the entry cursor
pub mod entry_views; // entry_views.rt: what stands at an entry cursor, and where in the image
pub mod presence; // presence.rt: presence of an entry, where the value of a key stands
pub mod questions; // questions.rt: what the layer above asks of one table
pub mod check; // check.rt: whether an image is sound
