// The calls on one table.
ghost use Rattle.std.specs.Prelude.{◌≡◌};
ghost use Rattle.image.specs.EntryMoves.{on, value_view, view_refusal};
ghost use Rattle.table.specs.Entries.{entry};
ghost use Rattle.table.specs.Memtable.{Freshens, Adds, Gets};
ghost use Rattle.table.specs.Presence.{Contains, ShowsRow};
ghost use Rattle.table.specs.Check.{Checked};
ghost use Rattle.table.specs.EntryViews.{Spans};
ghost use Rattle.capi.specs.Plain.{Plainly};
ghost use Rattle.capi.specs.Memtable.{plain_freshened, plain_added, plain_presence, plain_lookup, plain_view};

use capi::memtable::{BavoAdded, BavoLookup, BavoPresence, BavoView};

// Makes an empty table of the image. Refusal 1.
#[unsafe(no_mangle)]
pub extern "C" fn bavo_fresh(image: &mut [u8]) -> u32
    ensures { Plainly plain_freshened (λ a. Freshens image.old a image.new) result }
{
    capi::memtable::bavo_fresh(image)
}

// Adds an entry in a node of the given height. Refusals 1, 2, 3, 4, 5, 6, then 9 or 8, then 7.
#[unsafe(no_mangle)]
pub extern "C" fn bavo_add(
    image: &mut [u8],
    key: &[u8],
    number: u64,
    kind: u8,
    value: &[u8],
    height: usize,
) -> BavoAdded
    ensures { Plainly plain_added (λ a. Adds image.old (entry key.now number kind value.now) height a image.new) result }
{
    capi::memtable::bavo_add(image, key, number, kind, value, height)
}

// Whether the image is sound.
#[unsafe(no_mangle)]
pub extern "C" fn bavo_check(image: &[u8]) -> bool
    ensures { Checked image.now result }
{
    capi::memtable::bavo_check(image)
}

// Whether an entry of this key, number and type is held. Refusals 1, 2, 3, 4, 9.
#[unsafe(no_mangle)]
pub extern "C" fn bavo_contains(image: &[u8], key: &[u8], number: u64, kind: u8) -> BavoPresence
    ensures { Plainly plain_presence (λ a. Contains image.now key.now number kind a) result }
{
    capi::memtable::bavo_contains(image, key, number, kind)
}

// The newest entry of a key up to a snapshot. Refusals 1, 3, 4, 9.
#[unsafe(no_mangle)]
pub extern "C" fn bavo_get(image: &[u8], key: &[u8], snapshot: u64) -> BavoLookup
    ensures { Plainly plain_lookup (λ a. Gets image.now key.now snapshot a) result }
{
    capi::memtable::bavo_get(image, key, snapshot)
}

// The value of a found node. Refusals 1, 10, 9.
#[unsafe(no_mangle)]
pub extern "C" fn bavo_value(image: &[u8], node: usize) -> BavoView
    ensures { Plainly plain_view (λ a. Spans image.now (value_view image.now (on node)) a) result }
{
    capi::memtable::bavo_value(image, node)
}

// Its companion.
#[unsafe(no_mangle)]
pub extern "C" fn bavo_value_refusal(image: &[u8], node: usize) -> u32
    ensures { result ≡ view_refusal image.now (on node) }
{
    capi::memtable::bavo_value_refusal(image, node)
}

// The value of a key at a snapshot, in one call. A value, an empty one too, stands behind the header; where the key has no row it
// is the empty part at 0. Refusals 1, 3, 4, 9.
#[unsafe(no_mangle)]
pub extern "C" fn bavo_get_value(image: &[u8], key: &[u8], snapshot: u64) -> BavoView
    ensures { Plainly plain_view (λ a. ShowsRow image.now key.now snapshot a) result }
{
    capi::memtable::bavo_get_value(image, key, snapshot)
}
