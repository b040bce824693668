// Made by tools/moving from crates/cursor/src/db_iter.rt: its bodies, other contracts.
// The visible cursor: its moves over two lent images at a snapshot, each from the cursor that it is handed. A move answers from
// the entries held at that call; a refused one hands back its cursor. Nothing here writes.
use crate::key_types::LookupKey;
use crate::memtable_iter::{EntryCursor, Stays, hand_back, test_cursor};
use crate::places::{Cursor, Pair, Place};
use crate::questions::Cut;
use crate::refusals::Refusal;

impl<'a> Pair<'a> {
    // Whether a cursor names a node of its table, or none.
    fn is_inside(self, at: Cursor) -> bool {
        let Cursor::On(p) = at else {
            return true;
        };
        test_cursor(self.image_of(p.table), EntryCursor::On(p.node)).is_ok()
    }

    // The refusals of a move's arguments in their order: 1 of the first table, 1 of the second, 10, 3, 4.
    fn test_move(self, snapshot: u64, at: Cursor, key: &[u8]) -> Result<(), Refusal> {
        if !self.headers_hold() {
            return Err(Refusal::BadImage);
        }
        if !self.is_inside(at) {
            return Err(Refusal::NoNode);
        }
        let _ = LookupKey::of(key, snapshot)?;
        Ok(())
    }

    // To the first key with a row behind a cut.
    fn go(self, snapshot: u64, cut: Cut, key: &[u8]) -> Result<Cursor, Refusal> {
        Ok(match self.walk(snapshot, cut, key)? {
            Some(p) => Cursor::On(p),
            None => Cursor::Nowhere,
        })
    }

    // To the first key with a row behind a cut at the key of a place; a node that cannot be read is damage.
    fn go_from(self, snapshot: u64, cut: Cut, p: Place) -> Result<Cursor, Refusal> {
        if self.place_refusal(p).is_some() {
            return Err(Refusal::Damaged);
        }
        self.go(snapshot, cut, self.key_at(p))
    }

    // The moves, before a refused one hands back the cursor. They differ in the cut, in the key that is tested, and in what nowhere means.
    fn to_first(self, snapshot: u64, at: Cursor) -> Result<Cursor, Refusal> {
        self.test_move(snapshot, at, b"")?;
        self.go(snapshot, Cut::All, b"")
    }

    fn to_sought(self, snapshot: u64, at: Cursor, key: &[u8]) -> Result<Cursor, Refusal> {
        self.test_move(snapshot, at, key)?;
        self.go(snapshot, Cut::From, key)
    }

    fn to_next(self, snapshot: u64, at: Cursor) -> Result<Cursor, Refusal> {
        self.test_move(snapshot, at, b"")?;
        match at {
            Cursor::Nowhere => self.go(snapshot, Cut::All, b""),
            Cursor::On(p) => self.go_from(snapshot, Cut::Above, p),
        }
    }

    fn to_previous(self, snapshot: u64, at: Cursor) -> Result<Cursor, Refusal> {
        self.test_move(snapshot, at, b"")?;
        match at {
            Cursor::Nowhere => Ok(Cursor::Nowhere),
            Cursor::On(p) => self.go_from(snapshot, Cut::Below, p),
        }
    }
}

// To the least key with a row. Refusals 1, 10, 3, 9.
pub fn first<'a>(
    first: &'a [u8],
    second: &'a [u8],
    snapshot: u64,
    at: Cursor,
) -> Result<Cursor, Stays<Cursor>> {
    hand_back(Pair { first, second }.to_first(snapshot, at), at)
}

// To the least key with a row, at or above the given one. Refusals 1, 10, 3, 4, 9.
pub fn seek<'a>(
    first: &'a [u8],
    second: &'a [u8],
    snapshot: u64,
    at: Cursor,
    key: &[u8],
) -> Result<Cursor, Stays<Cursor>> {
    hand_back(Pair { first, second }.to_sought(snapshot, at, key), at)
}

// To the least key with a row above the cursor's; from nowhere the least of all. Refusals 1, 10, 3, 9.
pub fn next<'a>(
    first: &'a [u8],
    second: &'a [u8],
    snapshot: u64,
    at: Cursor,
) -> Result<Cursor, Stays<Cursor>> {
    hand_back(Pair { first, second }.to_next(snapshot, at), at)
}

// To the greatest key with a row below the cursor's; from nowhere nowhere. Refusals 1, 10, 3, 9.
pub fn prev<'a>(
    first: &'a [u8],
    second: &'a [u8],
    snapshot: u64,
    at: Cursor,
) -> Result<Cursor, Stays<Cursor>> {
    hand_back(Pair { first, second }.to_previous(snapshot, at), at)
}
