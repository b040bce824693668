// Bytes, tables, refusals and views in words.
ghost use Rattle.std.specs.Prelude.{◌≡◌, length, IfSome};

use crate::given::is_plain;
use crate::tables::Table;
use capi::memtable::BavoView;
use std::alloc::AllocError;
use std::{fmt, str};

// More equal bytes than this are written as one letter so many times.
const LONG: usize = 16;

const DIGITS: &[u8; 16] = b"0123456789abcdef";

// The digits of so many bytes are written at once.
const AT_ONCE: usize = 32;

// A part of some bytes, if they have it.
pub fn part(s: &[u8], from: usize, len: usize) -> Option<&[u8]>
    ensures { IfSome result (λ p. length p.now ≡ len) }
{
    s.get(from..)?.get(..len)
}

// The two digits of a byte in hexadecimal. The library's {:02x} takes several times as long, which long answers show.
pub fn digits(b: u8) -> [u8; 2] {
    [DIGITS[usize::from(b >> 4)], DIGITS[usize::from(b & 15)]]
}

// Bytes in hexadecimal.
#[derive(Clone, Copy, Debug)]
pub struct Hex<'a>(pub &'a [u8]);

impl fmt::Display for Hex<'_> {
    fn fmt<W: fmt::Write>(&self, f: &mut fmt::Formatter<W>) -> fmt::Result {
        let mut space = [[0; 2]; AT_ONCE];
        for chunk in self.0.chunks(AT_ONCE) {
            let pairs = space.get_mut(..chunk.len()).ok_or(fmt::Error)?;
            for (pair, b) in pairs.iter_mut().zip(chunk) {
                *pair = digits(*b);
            }
            let text = str::from_utf8(pairs.as_flattened()).map_err(|_| fmt::Error)?;
            f.write_str(text)?;
        }
        Ok(())
    }
}

// Bytes as a line gives them.
#[derive(Clone, Copy, Debug)]
pub struct Bytes<'a>(pub &'a [u8]);

impl fmt::Display for Bytes<'_> {
    fn fmt<W: fmt::Write>(&self, f: &mut fmt::Formatter<W>) -> fmt::Result {
        let Some(first) = self.0.first() else {
            return f.write_str("\"\"");
        };
        let text = match str::from_utf8(self.0) {
            Ok(text) if is_plain(self.0) => text,
            _ => return write!(f, "x:{}", Hex(self.0)),
        };
        if self.0.len() > LONG && self.0.iter().all(|b| b == first) {
            return write!(f, "{}*{}", char::from(*first), self.0.len());
        }
        f.write_str(text)
    }
}

// Which table something is in, where a call is over both.
#[derive(Clone, Copy, Debug)]
pub struct Within(pub Option<Table>);

impl fmt::Display for Within {
    fn fmt<W: fmt::Write>(&self, f: &mut fmt::Formatter<W>) -> fmt::Result {
        match self.0 {
            Some(table) => write!(f, " in {table}"),
            None => Ok(()),
        }
    }
}

// A refused call, by the refusal's number.
#[derive(Clone, Copy, Debug, PartialEq, Eq)]
pub struct Refused(u32);

impl Refused {
    // C's number of a refusal: 0 is none.
    pub fn unless_zero(refusal: u32) -> Result<(), Refused> {
        match refusal {
            0 => Ok(()),
            _ => Err(Refused(refusal)),
        }
    }
}

impl fmt::Display for Refused {
    fn fmt<W: fmt::Write>(&self, f: &mut fmt::Formatter<W>) -> fmt::Result {
        write!(f, "refused {}", self.0)
    }
}

// The part of an image that C's struct names, or a refusal.
#[derive(Clone, Copy)]
pub struct View<'a> {
    image: &'a [u8],
    view: BavoView,
}

impl<'a> View<'a> {
    pub fn new(image: &'a [u8], view: BavoView) -> View<'a> {
        View { image, view }
    }

    // The bytes that it shows.
    fn bytes(self) -> Result<Bytes<'a>, Refused> {
        Refused::unless_zero(self.view.refusal)?;
        let bytes = part(self.image, self.view.offset, self.view.length);
        Ok(Bytes(bytes.unwrap_or(&[])))
    }

    // Writes them with the place where they stand.
    pub fn write_at(self, table: Option<Table>, out: &mut String) -> Result<(), AllocError> {
        match self.bytes() {
            Ok(bytes) => write!(out, "{bytes}{} at {}", Within(table), self.view.offset),
            Err(refused) => write!(out, "{refused}"),
        }
    }
}

impl fmt::Display for View<'_> {
    fn fmt<W: fmt::Write>(&self, f: &mut fmt::Formatter<W>) -> fmt::Result {
        match self.bytes() {
            Ok(bytes) => write!(f, "{bytes}"),
            Err(refused) => write!(f, "{refused}"),
        }
    }
}
