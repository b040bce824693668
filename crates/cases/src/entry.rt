// An entry as document 01 writes it: a@1=x a value, a@3-z a deletion that carries z, a@1~2=x one of type 2; and a key with a number
// or a snapshot, a@3.
use crate::given::{bytes, number};
use crate::trouble::{NoLine, Trouble};
use std::alloc::Global;

// The two types that a table knows. They are numbers and no enum, since a line may hand C any other.
pub const DELETION: u8 = 0;

pub const VALUE: u8 = 1;

// A key with a number.
#[derive(Debug, Drop)]
pub struct Key {
    pub bytes: Vec<u8>,
    pub number: u64,
}

// An entry; its value as the text gives it.
#[derive(Debug, Drop)]
pub struct Entry<'a> {
    pub key: Key,
    pub kind: u8,
    value: &'a [u8],
}

// The text up to the first byte that is the mark, and what stands behind that, if it is there.
fn cut(s: &[u8], mark: u8) -> (&[u8], Option<&[u8]>) {
    let mut parts = s.splitn(2, |b| *b == mark);
    (parts.next().unwrap_or(s), parts.next())
}

// The key at the front of a text, and what stands behind its number.
fn read_key(alloc: Global, s: &[u8]) -> Result<(Key, &[u8]), Trouble> {
    let (front, behind) = cut(s, b'@');
    let behind = behind.ok_or(NoLine)?;
    let len = behind.iter().take_while(|b| b.is_ascii_digit()).count();
    let (digits, typed) = behind.split_at(len);
    let bytes = bytes(alloc, front)?;
    let number = number(digits)?;
    Ok((Key { bytes, number }, typed))
}

// The type that is written behind ~, and the value.
fn numbered(s: &[u8]) -> Result<(u8, &[u8]), NoLine> {
    let (kind, value) = cut(s, b'=');
    Ok((number(kind)?, value.unwrap_or(&[])))
}

impl Key {
    // A key with a number and no more.
    pub fn new(alloc: Global, s: &[u8]) -> Result<Key, Trouble> {
        match read_key(alloc, s)? {
            (key, []) => Ok(key),
            _ => Err(Trouble::NoLine),
        }
    }
}

impl<'a> Entry<'a> {
    // An entry, which has a type.
    pub fn new(alloc: Global, s: &'a [u8]) -> Result<Entry<'a>, Trouble> {
        let (key, typed) = read_key(alloc, s)?;
        let (kind, value) = match typed {
            [b'=', value @ ..] => (VALUE, value),
            [b'-', value @ ..] => (DELETION, value),
            [b'~', typed @ ..] => numbered(typed)?,
            _ => return Err(Trouble::NoLine),
        };
        Ok(Entry { key, kind, value })
    }

    // Whether nothing stands behind the type.
    pub fn is_bare(&self) -> bool {
        self.value.is_empty()
    }

    // The value; nothing behind the type is the empty one.
    pub fn value(&self, alloc: Global) -> Result<Vec<u8>, Trouble> {
        if self.is_bare() {
            return Ok(Vec::new(alloc));
        }
        bytes(alloc, self.value)
    }
}
