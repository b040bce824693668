// Numbers and bytes as a line gives them. Bytes are letters and digits as they stand (gpu0), or in hexadecimal (x:6162), or one
// letter so many times (k*1025); "" are none.
ghost use Rattle.std.specs.Prelude.{◌<◌, IfOk};

use crate::trouble::{NoLine, Trouble};
use std::alloc::Global;
use std::str;
use std::str::FromStr;

// No word gives more bytes than this. The longest value has 4,096.
pub const LONGEST: usize = 4200;

// A decimal number that fits its type; parse alone would take a sign too.
pub fn number<T: FromStr>(s: &[u8]) -> Result<T, NoLine>
where
    T::Err: Drop,
{
    if !s.iter().all(|b| b.is_ascii_digit()) {
        return Err(NoLine);
    }
    let text = str::from_utf8(s).map_err(|_| NoLine)?;
    text.parse().map_err(|_| NoLine)
}

// What a digit stands for in hexadecimal.
fn digit(b: u8) -> Result<u8, NoLine>
    ensures { IfOk result (λ d. d < 16) }
{
    match b {
        b'0'..=b'9' => Ok(b - b'0'),
        b'a'..=b'f' => Ok(b - b'a' + 10),
        _ => Err(NoLine),
    }
}

// Bytes of two digits each.
pub fn hexes(alloc: Global, s: &[u8]) -> Result<Vec<u8>, Trouble> {
    let (pairs, odd) = s.as_chunks::<2>();
    if !odd.is_empty() || pairs.len() > LONGEST {
        return Err(Trouble::NoLine);
    }
    pairs
        .iter()
        .map(|[high, low]| -> Result<u8, Trouble> { Ok(digit(*high)? * 16 + digit(*low)?) })
        .try_collect(alloc)
}

// One byte so many times.
fn repeated(alloc: Global, b: u8, times: usize) -> Result<Vec<u8>, Trouble> {
    if times > LONGEST {
        return Err(Trouble::NoLine);
    }
    Ok(vec![in alloc; b; times]?)
}

// Whether bytes are letters and digits only, or _.
pub fn is_plain(s: &[u8]) -> bool {
    s.iter().all(|b| b.is_ascii_alphanumeric() || *b == b'_')
}

// Letters and digits as they stand.
fn plain(alloc: Global, s: &[u8]) -> Result<Vec<u8>, Trouble> {
    if s.is_empty() || s.len() > LONGEST || !is_plain(s) {
        return Err(Trouble::NoLine);
    }
    Ok(s.to_vec(alloc)?)
}

// The bytes that a text gives.
pub fn bytes(alloc: Global, s: &[u8]) -> Result<Vec<u8>, Trouble> {
    match s {
        b"\"\"" => Ok(Vec::new(alloc)),
        [b'x', b':', digits @ ..] => hexes(alloc, digits),
        [b, b'*', times @ ..] => repeated(alloc, *b, number(times)?),
        _ => plain(alloc, s),
    }
}
