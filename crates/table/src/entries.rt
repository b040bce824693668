// The bytes of an entry: their number, written and read.
ghost use Rattle.std.specs.Prelude.{◌≡◌, ◌+◌, ◌≤◌, length};
ghost use Rattle.std.proofs.lemmas.List.Edits.{sets};
ghost use Rattle.rule.specs.Order.{is_less};
ghost use Rattle.image.specs.Entries.{encode, keyed_at, rest_at, key_in, number_in, compare_keyed};
ghost use Rattle.table.specs.Refusals.{read_as};
ghost use Rattle.table.specs.Entries.{entry_is, keyed_of, KeyedFits, parts_of, PartsFits};

use crate::key_types::{Kind, LookupKey, Number, Tag, get_tag, len_at, len_size, put_len, put_tag};
use crate::refusals::Fault;
use crate::tested::Entry;
use crate::words::put_bytes;

// The most bytes of a key, and of a value.
pub const MAX_KEY: usize = 1024;

pub(crate) const MAX_VALUE: usize = 4096;

impl<'a> Entry<'a> {
    // Its key with its number.
    pub(crate) fn lookup_key(self) -> LookupKey<'a>
        ensures key { result.key.now ≡ self.entry.key.now }
        ensures number { result.number.is ≡ self.entry.number.is }
    {
        LookupKey {
            key: self.key,
            number: self.number,
        }
    }

    // How many bytes it takes.
    pub(crate) fn size(self) -> usize
        ensures { result ≡ length (encode (entry_is self.entry)) }
    {
        let key_len = self.key.len();
        let value_len = self.value.len();
        len_size(key_len + 8) + key_len + 8 + len_size(value_len) + value_len
    }

    // Writes it at a place: length of key and tag, key, tag, length of value, value.
    pub(crate) fn put(self, s: &mut [u8], at: usize)
        requires { at + length (encode (entry_is self)) ≤ length s.old }
        ensures { s.new ≡ sets s.old at (encode (entry_is self.entry)) }
    {
        let key_at = put_len(s, at, self.key.len() + 8);
        put_bytes(s, key_at, self.key);
        let tag_at = key_at + self.key.len();
        put_tag(s, tag_at, Tag::pack(self.number, self.kind));
        let value_at = put_len(s, tag_at + 8, self.value.len());
        put_bytes(s, value_at, self.value);
    }
}

// Where the key of an entry stands, its tag, and where its value's length begins. That the key lies in the image is asked where it is
// used: a value that carried the fact would carry the image too.
#[derive(Clone, Copy)]
pub(crate) struct Keyed {
    pub key_at: usize,
    pub key_len: usize,
    pub tag: Tag,
    pub rest: usize,
}

impl Keyed {
    // The key, where it stands.
    pub(crate) fn key(self, s: &[u8]) -> &[u8]
        requires { self.key_at + self.key_len ≤ length s.now }
        ensures { result.now ≡ key_in s.now (keyed_of self) }
    {
        &s[self.key_at..self.key_at + self.key_len]
    }

    // The key with the number.
    pub(crate) fn lookup_key(self, s: &[u8]) -> LookupKey<'_>
        requires { self.key_at + self.key_len ≤ length s.now }
        ensures key { result.key.now ≡ key_in s.now (keyed_of self) }
        ensures number { result.number.is ≡ number_in (keyed_of self) }
    {
        LookupKey {
            key: self.key(s),
            number: self.tag.number(),
        }
    }

    // Whether its entry comes before another in the order; the keys are compared where they stand.
    pub(crate) fn precedes(self, s: &[u8], other: Keyed) -> bool
        requires mine { self.key_at + self.key_len ≤ length s.now }
        requires others { other.key_at + other.key_len ≤ length s.now }
        ensures { result ≡ is_less (compare_keyed s.now (keyed_of self) (keyed_of other)) }
    {
        self.lookup_key(s).compare(other.lookup_key(s)).is_lt()
    }
}

// Key and tag of the entry at o, which ends before the place end. Image and end, and not a shorter slice: what is promised is said of
// the image, here and of the two other readers that take an end.
pub(crate) fn keyed_at(s: &[u8], o: usize, end: usize) -> Result<Keyed, Fault>
    requires { end ≤ length s.now }
    ensures exact { read_as keyed_of result ≡ keyed_at s.now o end }
    ensures fits { KeyedFits end result }
{
    let len = len_at(s, end, o)?;
    if len.is < 8 {
        return Err(Fault { at: o });
    }
    if len.is > MAX_KEY + 8 {
        return Err(Fault { at: o });
    }
    let rest = len.after + len.is;
    if rest > end {
        return Err(Fault { at: o });
    }
    let key_len = len.is - 8;
    Ok(Keyed {
        key_at: len.after,
        key_len,
        tag: get_tag(s, len.after + key_len),
        rest,
    })
}

// Where the parts of an entry stand, and its type.
#[derive(Clone, Copy)]
pub(crate) struct Parts {
    pub keyed: Keyed,
    pub kind: Kind,
    pub value_at: usize,
    pub value_len: usize,
}

// The type and the value of an entry that fills the bytes up to end, after its key and tag were read.
pub(crate) fn rest_at(s: &[u8], end: usize, keyed: Keyed) -> Result<Parts, Fault>
    requires { (end ≤ length s.now) × (keyed.key_at + keyed.key_len ≤ end) }
    ensures exact { read_as parts_of result ≡ rest_at s.now end (keyed_of keyed) }
    ensures fits { PartsFits end result }
{
    let Ok(kind) = keyed.tag.kind() else {
        return Err(Fault {
            at: keyed.key_at + keyed.key_len,
        });
    };
    let fault = Fault { at: keyed.rest };
    let len = len_at(s, end, keyed.rest)?;
    if len.is > MAX_VALUE {
        return Err(fault);
    }
    let stop = len.after + len.is;
    if stop > end {
        return Err(fault);
    }
    if stop < end {
        return Err(Fault { at: stop });
    }
    Ok(Parts {
        keyed,
        kind,
        value_at: len.after,
        value_len: len.is,
    })
}
