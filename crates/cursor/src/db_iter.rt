// The visible cursor: its moves over two lent images at a snapshot, each from the cursor that it is handed. A move answers from
// the entries held at that call; a refused one hands back its cursor. Nothing here writes.
ghost use Rattle.std.specs.Prelude.{◌≡◌};
ghost use Rattle.rule.specs.Moves as rule;
ghost use Rattle.table.specs.Questions.{cut_of};
ghost use Rattle.table.specs.Refusals.{answer_as};
ghost use Rattle.cursor.specs.Places.{inside};
ghost use Rattle.cursor.specs.Moves.{asked, went_as, MovesAs, Moves};
ghost use Rattle.cursor.specs.Going.{HeadersHold, Went, WentFrom};

use crate::places::{Cursor, Pair, Place};
use table::key_types::LookupKey;
use table::memtable_iter::{EntryCursor, Stays, hand_back, test_cursor};
use table::questions::Cut;
use table::refusals::Refusal;

impl<'a> Pair<'a> {
    // Whether a cursor names a node of its table, or none.
    fn is_inside(self, at: Cursor) -> bool
        requires { HeadersHold self.first.now self.second.now }
        ensures { result ≡ inside self.entry.first.now self.entry.second.now at }
    {
        let Cursor::On(p) = at else {
            return true;
        };
        test_cursor(self.image_of(p.table), EntryCursor::On(p.node)).is_ok()
    }

    // The refusals of a move's arguments in their order: 1 of the first table, 1 of the second, 10, 3, 4.
    fn test_move(self, snapshot: u64, at: Cursor, key: &[u8]) -> Result<(), Refusal>
        ensures { answer_as (λ passed. tt) result ≡ asked self.entry.first.now self.entry.second.now snapshot at key.now }
    {
        if !self.headers_hold() {
            return Err(Refusal::BadImage);
        }
        if !self.is_inside(at) {
            return Err(Refusal::NoNode);
        }
        let _ = LookupKey::of(key, snapshot)?;
        Ok(())
    }

    // To the first key with a row behind a cut.
    fn go(self, snapshot: u64, cut: Cut, key: &[u8]) -> Result<Cursor, Refusal>
        ensures { Went self.entry.first.now self.entry.second.now snapshot (cut_of cut) key.now result }
    {
        Ok(match self.walk(snapshot, cut, key)? {
            Some(p) => Cursor::On(p),
            None => Cursor::Nowhere,
        })
    }

    // To the first key with a row behind a cut at the key of a place; a node that cannot be read is damage.
    fn go_from(self, snapshot: u64, cut: Cut, p: Place) -> Result<Cursor, Refusal>
        ensures { WentFrom self.entry.first.now self.entry.second.now snapshot (cut_of cut) p result }
    {
        if self.place_refusal(p).is_some() {
            return Err(Refusal::Damaged);
        }
        self.go(snapshot, cut, self.key_at(p))
    }

    // The moves, before a refused one hands back the cursor. They differ in the cut, in the key that is tested, and in what nowhere means.
    fn to_first(self, snapshot: u64, at: Cursor) -> Result<Cursor, Refusal>
        ensures { MovesAs rule.first self.entry.first.now self.entry.second.now snapshot at (went_as at result) }
    {
        self.test_move(snapshot, at, b"")?;
        self.go(snapshot, Cut::All, b"")
    }

    fn to_sought(self, snapshot: u64, at: Cursor, key: &[u8]) -> Result<Cursor, Refusal>
        ensures { MovesAs (rule.seek key.now) self.entry.first.now self.entry.second.now snapshot at (went_as at result) }
    {
        self.test_move(snapshot, at, key)?;
        self.go(snapshot, Cut::From, key)
    }

    fn to_next(self, snapshot: u64, at: Cursor) -> Result<Cursor, Refusal>
        ensures { MovesAs rule.next self.entry.first.now self.entry.second.now snapshot at (went_as at result) }
    {
        self.test_move(snapshot, at, b"")?;
        match at {
            Cursor::Nowhere => self.go(snapshot, Cut::All, b""),
            Cursor::On(p) => self.go_from(snapshot, Cut::Above, p),
        }
    }

    fn to_previous(self, snapshot: u64, at: Cursor) -> Result<Cursor, Refusal>
        ensures { MovesAs rule.previous self.entry.first.now self.entry.second.now snapshot at (went_as at result) }
    {
        self.test_move(snapshot, at, b"")?;
        match at {
            Cursor::Nowhere => Ok(Cursor::Nowhere),
            Cursor::On(p) => self.go_from(snapshot, Cut::Below, p),
        }
    }
}

// To the least key with a row. Refusals 1, 10, 3, 9.
pub fn first<'a>(
    first: &'a [u8],
    second: &'a [u8],
    snapshot: u64,
    at: Cursor,
) -> Result<Cursor, Stays<Cursor>>
    ensures { Moves rule.first first.now second.now snapshot at result }
{
    hand_back(Pair { first, second }.to_first(snapshot, at), at)
}

// To the least key with a row, at or above the given one. Refusals 1, 10, 3, 4, 9.
pub fn seek<'a>(
    first: &'a [u8],
    second: &'a [u8],
    snapshot: u64,
    at: Cursor,
    key: &[u8],
) -> Result<Cursor, Stays<Cursor>>
    ensures { Moves (rule.seek key.now) first.now second.now snapshot at result }
{
    hand_back(Pair { first, second }.to_sought(snapshot, at, key), at)
}

// To the least key with a row above the cursor's; from nowhere the least of all. Refusals 1, 10, 3, 9.
pub fn next<'a>(
    first: &'a [u8],
    second: &'a [u8],
    snapshot: u64,
    at: Cursor,
) -> Result<Cursor, Stays<Cursor>>
    ensures { Moves rule.next first.now second.now snapshot at result }
{
    hand_back(Pair { first, second }.to_next(snapshot, at), at)
}

// To the greatest key with a row below the cursor's; from nowhere nowhere. Refusals 1, 10, 3, 9.
pub fn prev<'a>(
    first: &'a [u8],
    second: &'a [u8],
    snapshot: u64,
    at: Cursor,
) -> Result<Cursor, Stays<Cursor>>
    ensures { Moves rule.previous first.now second.now snapshot at result }
{
    hand_back(Pair { first, second }.to_previous(snapshot, at), at)
}
