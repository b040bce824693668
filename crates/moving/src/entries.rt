// Made by tools/moving from crates/table/src/entries.rt: its bodies, other contracts.
// The bytes of an entry: their number, written and read.
ghost use Rattle.std.specs.Prelude.{◌≡◌, ◌+◌, ◌≤◌, length};
ghost use Rattle.moving.specs.Entries.{entry_size, KeyInside, KeyedFits, PartsFit};

use crate::key_types::{Kind, LookupKey, Number, Tag, get_tag, len_at, len_size, put_len, put_tag};
use crate::refusals::Fault;
use crate::tested::Entry;
use crate::words::put_bytes;

// The most bytes of a key, and of a value.
pub const MAX_KEY: usize = 1024;

pub(crate) const MAX_VALUE: usize = 4096;

impl<'a> Entry<'a> {
    // Its key with its number.
    pub(crate) fn lookup_key(self) -> LookupKey<'a> {
        LookupKey {
            key: self.key,
            number: self.number,
        }
    }

    // How many bytes it takes.
    pub(crate) fn size(self) -> usize
        ensures { (result ≡ entry_size (length self.entry.key.now) (length self.entry.value.now)) × (result ≤ 5132) }
    {
        let key_len = self.key.len();
        let value_len = self.value.len();
        len_size(key_len + 8) + key_len + 8 + len_size(value_len) + value_len
    }

    // Writes it at a place: length of key and tag, key, tag, length of value, value.
    pub(crate) fn put(self, s: &mut [u8], at: usize)
        requires { at + entry_size (length self.key.now) (length self.value.now) ≤ length s.old }
        ensures { length s.new ≡ length s.old }
    {
        let key_at = put_len(s, at, self.key.len() + 8);
        put_bytes(s, key_at, self.key);
        let tag_at = key_at + self.key.len();
        put_tag(s, tag_at, Tag::pack(self.number, self.kind));
        let value_at = put_len(s, tag_at + 8, self.value.len());
        put_bytes(s, value_at, self.value);
    }
}

// Where the key of an entry stands, its tag, and where its value's length begins. That the key lies in the image is asked where it is
// used: a value that carried the fact would carry the image too.
#[derive(Clone, Copy)]
pub(crate) struct Keyed {
    pub key_at: usize,
    pub key_len: usize,
    pub tag: Tag,
    pub rest: usize,
}

impl Keyed {
    // The key, where it stands.
    pub(crate) fn key(self, s: &[u8]) -> &[u8]
        requires { KeyInside (length s.now) self }
    {
        &s[self.key_at..self.key_at + self.key_len]
    }

    // The key with the number.
    pub(crate) fn lookup_key(self, s: &[u8]) -> LookupKey<'_>
        requires { KeyInside (length s.now) self }
    {
        LookupKey {
            key: self.key(s),
            number: self.tag.number(),
        }
    }

    // Whether its entry comes before another in the order; the keys are compared where they stand.
    pub(crate) fn precedes(self, s: &[u8], other: Keyed) -> bool
        requires { KeyInside (length s.now) self × KeyInside (length s.now) other }
    {
        self.lookup_key(s).compare(other.lookup_key(s)).is_lt()
    }
}

// Key and tag of the entry at o, which ends before the place end. Image and end, and not a shorter slice: what is promised is said of
// the image, here and of the two other readers that take an end.
pub(crate) fn keyed_at(s: &[u8], o: usize, end: usize) -> Result<Keyed, Fault>
    requires { end ≤ length s.now }
    ensures { KeyedFits end result }
{
    let len = len_at(s, end, o)?;
    if len.is < 8 {
        return Err(Fault { at: o });
    }
    if len.is > MAX_KEY + 8 {
        return Err(Fault { at: o });
    }
    let rest = len.after + len.is;
    if rest > end {
        return Err(Fault { at: o });
    }
    let key_len = len.is - 8;
    Ok(Keyed {
        key_at: len.after,
        key_len,
        tag: get_tag(s, len.after + key_len),
        rest,
    })
}

// Where the parts of an entry stand, and its type.
#[derive(Clone, Copy)]
pub(crate) struct Parts {
    pub keyed: Keyed,
    pub kind: Kind,
    pub value_at: usize,
    pub value_len: usize,
}

// The type and the value of an entry that fills the bytes up to end, after its key and tag were read.
pub(crate) fn rest_at(s: &[u8], end: usize, keyed: Keyed) -> Result<Parts, Fault>
    requires { (end ≤ length s.now) × KeyInside end keyed }
    ensures { PartsFit end result }
{
    let Ok(kind) = keyed.tag.kind() else {
        return Err(Fault {
            at: keyed.key_at + keyed.key_len,
        });
    };
    let fault = Fault { at: keyed.rest };
    let len = len_at(s, end, keyed.rest)?;
    if len.is > MAX_VALUE {
        return Err(fault);
    }
    let stop = len.after + len.is;
    if stop > end {
        return Err(fault);
    }
    if stop < end {
        return Err(Fault { at: stop });
    }
    Ok(Parts {
        keyed,
        kind,
        value_at: len.after,
        value_len: len.is,
    })
}
