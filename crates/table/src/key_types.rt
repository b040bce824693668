// Number, type, tag, lengths and order.
ghost use Rattle.std.specs.Prelude.{◌≡◌, ◌+◌, ◌*◌, ◌/◌, ◌%◌, ◌<◌, ◌≤◌, length, leb};
ghost use Rattle.std.proofs.lemmas.List.Edits.{sets};
ghost use Rattle.rule.specs.Order.{compare_keys, compare_entries};
ghost use Rattle.image.specs.Limits.{max_number};
ghost use Rattle.image.specs.Words.{fixed, bytes};
ghost use Rattle.image.specs.Entries.{varint, len_at};
ghost use Rattle.table.specs.Refusals.{read_as};
ghost use Rattle.table.specs.KeyTypes.{len_of, LenFits, ord_of, Front, code_of, NumberOf, KindOf, LooksFor};

use crate::entries::MAX_KEY;
use crate::refusals::{Fault, Refusal};
use crate::words::{get_u64, put_bytes};
use std::cmp::Ordering;

// The number of an entry, or of a snapshot.
#[derive(Clone, Copy)]
pub struct Number {
    pub is: u64,
}

impl Number {
    pub const MAX: u64 = 72057594037927935;

    // Whether n is within the limit of a number.
    pub fn fits(n: u64) -> bool
        ensures { result ≡ leb n max_number }
    {
        n <= Number::MAX
    }
}

impl TryFrom<u64> for Number {
    type Error = Refusal;

    ghost try_from_gives = { NumberOf };

    fn try_from(n: u64) -> Result<Number, Refusal> {
        if !Number::fits(n) {
            return Err(Refusal::BadNumber);
        }
        Ok(Number { is: n })
    }
}

// The type of an entry.
#[derive(Clone, Copy, Debug, PartialEq, Eq)]
pub enum Kind {
    Deletion,
    Value,
}

impl TryFrom<u8> for Kind {
    type Error = Refusal;

    ghost try_from_gives = { KindOf };

    fn try_from(code: u8) -> Result<Kind, Refusal> {
        match code {
            Tag::DELETION => Ok(Kind::Deletion),
            Tag::VALUE => Ok(Kind::Value),
            _ => Err(Refusal::BadKind),
        }
    }
}

// A number with the type of its entry: the number shifted left by eight bits, the type in the low byte.
#[derive(Clone, Copy)]
pub struct Tag {
    pub word: u64,
}

impl Tag {
    // The codes of the two types, as the image and C's calls have them.
    pub const DELETION: u8 = 0;

    pub const VALUE: u8 = 1;

    // The code of a type.
    pub fn code(kind: Kind) -> u8
        ensures { result ≡ code_of kind }
    {
        match kind {
            Kind::Deletion => Tag::DELETION,
            Kind::Value => Tag::VALUE,
        }
    }

    // A number and a type in one word.
    pub(crate) fn pack(number: Number, kind: Kind) -> Tag
        requires { number.is ≤ max_number }
        ensures { result.word ≡ number.is * 256 + code_of kind }
    {
        Tag {
            word: (number.is << 8) | u64::from(Tag::code(kind)),
        }
    }

    // The number of a tag.
    pub(crate) fn number(self) -> Number
        ensures { result.is ≡ self.word / 256 }
    {
        Number { is: self.word >> 8 }
    }

    // The type of a tag, which may be none of the two.
    pub(crate) fn kind(self) -> Result<Kind, Refusal>
        ensures { KindOf (self.word % 256) result }
    {
        Kind::try_from((self.word & 0xff) as u8)
    }
}

// The tag in the eight bytes from o, low byte first.
pub(crate) fn get_tag(s: &[u8], o: usize) -> Tag
    requires { o + 8 ≤ length s.now }
    ensures { result.word ≡ fixed 8 s.now o }
{
    Tag {
        word: get_u64(s, o),
    }
}

// Writes the eight bytes of a tag, low byte first.
pub(crate) fn put_tag(s: &mut [u8], at: usize, t: Tag)
    requires { at + 8 ≤ length s.old }
    ensures { s.new ≡ sets s.old at (bytes 8 t.word) }
{
    put_bytes(s, at, &t.word.to_le_bytes());
}

// How many bytes a length takes.
pub(crate) fn len_size(len: usize) -> usize
    ensures { (result ≡ length (varint len)) × (result ≤ 2) }
{
    if len < 128 { 1 } else { 2 }
}

// Writes a length in its shortest form; answers the place behind it. The library has no base-128 numbers.
pub(crate) fn put_len(s: &mut [u8], at: usize, n: usize) -> usize
    requires { (n < 16384) × (at + length (varint n) ≤ length s.old) }
    ensures { (s.new ≡ sets s.old at (varint n)) × (result ≡ at + length (varint n)) }
{
    if n < 128 {
        s[at] = n as u8;
        return at + 1;
    }
    s[at] = (128 + n % 128) as u8;
    s[at + 1] = (n / 128) as u8;
    at + 2
}

// A length with the place behind it.
#[derive(Clone, Copy)]
pub(crate) struct Len {
    pub is: usize,
    pub after: usize,
}

// The length that stands at o, before the place end; the library reads no such numbers.
pub(crate) fn len_at(s: &[u8], end: usize, o: usize) -> Result<Len, Fault>
    requires { end ≤ length s.now }
    ensures exact { read_as len_of result ≡ len_at s.now end o }
    ensures fits { LenFits end result }
{
    let fault = Fault { at: o };
    if o >= end {
        return Err(fault);
    }
    let low = usize::from(s[o]);
    let next = o + 1;
    if low < 128 {
        return Ok(Len {
            is: low,
            after: next,
        });
    }
    if next >= end {
        return Err(fault);
    }
    let high = usize::from(s[next]);
    if high < 1 {
        return Err(fault);
    }
    if high >= 128 {
        return Err(fault);
    }
    Ok(Len {
        is: low - 128 + 128 * high,
        after: o + 2,
    })
}

// How many bytes two keys have in common at their front, in steps of eight: eight bytes are one number of the machine.
fn common_front(a: &[u8], b: &[u8]) -> usize
    ensures { Front a.now b.now result }
{
    let steps = a.len().min(b.len()) / 8;
    for i in 0..steps {
        let x = get_u64(a, 8 * i);
        let y = get_u64(b, 8 * i);
        if x != y {
            return 8 * i;
        }
    }
    8 * steps
}

// Two keys by their bytes; a proper prefix comes first. The order of slices in the library may read a byte more than once,
// which bytes that change meanwhile do not bear (crates/moving).
pub(crate) fn compare_keys(a: &[u8], b: &[u8]) -> Ordering
    ensures { ord_of result ≡ compare_keys a.now b.now }
{
    let front = common_front(a, b);
    let both = a.len().min(b.len());
    for i in front..both {
        let x = a[i];
        let y = b[i];
        if x != y {
            return x.cmp(&y);
        }
    }
    a.len().cmp(&b.len())
}

// A key with a number: what a search looks for, and what the order of entries goes by.
#[derive(Clone, Copy)]
pub struct LookupKey<'a> {
    pub key: &'a [u8],
    pub number: Number,
}

impl<'a> LookupKey<'a> {
    // What a call is to look for, within the limits. Refusals 3, 4.
    pub fn of(key: &'a [u8], number: u64) -> Result<LookupKey<'a>, Refusal>
        ensures { LooksFor key.now number result }
    {
        let number = Number::try_from(number)?;
        if key.len() > MAX_KEY {
            return Err(Refusal::LongKey);
        }
        Ok(LookupKey { key, number })
    }

    // Keys ascending, numbers of equal keys descending. A derived order would take a number turned round in the field.
    pub(crate) fn compare(self, other: LookupKey<'a>) -> Ordering
        ensures { ord_of result ≡ compare_entries self.entry.key.now self.entry.number.is other.entry.key.now other.entry.number.is }
    {
        compare_keys(self.key, other.key).then(other.number.is.cmp(&self.number.is))
    }
}
