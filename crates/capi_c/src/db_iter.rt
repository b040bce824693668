// The visible cursor over two tables, and the lookup in a pair.
ghost use Rattle.rule.specs.Moves as rule;
ghost use Rattle.cursor.specs.Pairs.{GetsPair};
ghost use Rattle.cursor.specs.Moves.{Moves};
ghost use Rattle.capi.specs.Plain.{Plainly};
ghost use Rattle.capi.specs.DbIter.{cursor_of, plain_moved, plain_pair_lookup};

use capi::db_iter::{BavoCursor, BavoMoved, BavoPairLookup};

// The newest entry of a key up to a snapshot in a pair. Refusals 1 (first table, then second), 3, 4, 9.
#[unsafe(no_mangle)]
pub extern "C" fn bavo_pair_get(
    first: &[u8],
    second: &[u8],
    key: &[u8],
    snapshot: u64,
) -> BavoPairLookup
    ensures { Plainly plain_pair_lookup (λ a. GetsPair first.now second.now key.now snapshot a) result }
{
    capi::db_iter::bavo_pair_get(first, second, key, snapshot)
}

// To the least key with a row. Refusals 1, 10, 3, 9.
#[unsafe(no_mangle)]
pub extern "C" fn bavo_first<'a>(
    first: &'a [u8],
    second: &'a [u8],
    snapshot: u64,
    at: BavoCursor,
) -> BavoMoved
    ensures { Plainly (plain_moved at) (λ a. Moves rule.first first.now second.now snapshot (cursor_of at) a) result }
{
    capi::db_iter::bavo_first(first, second, snapshot, at)
}

// To the least key with a row, at or above the given one. Refusals 1, 10, 3, 4, 9.
#[unsafe(no_mangle)]
pub extern "C" fn bavo_seek<'a>(
    first: &'a [u8],
    second: &'a [u8],
    snapshot: u64,
    at: BavoCursor,
    key: &[u8],
) -> BavoMoved
    ensures { Plainly (plain_moved at) (λ a. Moves (rule.seek key.now) first.now second.now snapshot (cursor_of at) a) result }
{
    capi::db_iter::bavo_seek(first, second, snapshot, at, key)
}

// To the least key with a row above the cursor's. Refusals 1, 10, 3, 9.
#[unsafe(no_mangle)]
pub extern "C" fn bavo_next<'a>(
    first: &'a [u8],
    second: &'a [u8],
    snapshot: u64,
    at: BavoCursor,
) -> BavoMoved
    ensures { Plainly (plain_moved at) (λ a. Moves rule.next first.now second.now snapshot (cursor_of at) a) result }
{
    capi::db_iter::bavo_next(first, second, snapshot, at)
}

// To the greatest key with a row below the cursor's. Refusals 1, 10, 3, 9.
#[unsafe(no_mangle)]
pub extern "C" fn bavo_prev<'a>(
    first: &'a [u8],
    second: &'a [u8],
    snapshot: u64,
    at: BavoCursor,
) -> BavoMoved
    ensures { Plainly (plain_moved at) (λ a. Moves rule.previous first.now second.now snapshot (cursor_of at) a) result }
{
    capi::db_iter::bavo_prev(first, second, snapshot, at)
}
