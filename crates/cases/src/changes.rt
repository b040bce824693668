// Which bytes differ between an image and what it was.
use crate::LONGEST_ANSWER;
use std::alloc::AllocError;

// So many bytes are compared at once where they are the same.
const AT_ONCE: usize = 256;

// The first place from a place on where the bytes differ.
fn differing(image: &[u8], before: &[u8], from: usize) -> Option<usize> {
    let before = before.get(from..image.len())?;
    let image = image.get(from..)?;
    let mut chunks = image.chunks(AT_ONCE).zip(before.chunks(AT_ONCE));
    let same = chunks
        .position(|(bytes, were)| bytes != were)?
        .checked_mul(AT_ONCE)?;
    let mut bytes = image.get(same..)?.iter().zip(before.get(same..)?);
    let behind = bytes.position(|(byte, was)| byte != was)?;
    from.checked_add(same)?.checked_add(behind)
}

// The first place from a place on where they are the same.
fn same(image: &[u8], before: &[u8], from: usize) -> Option<usize> {
    let mut bytes = image.get(from..)?.iter().zip(before.get(from..)?);
    from.checked_add(bytes.position(|(byte, was)| byte == was)?)
}

// Writes a stretch: its first byte and, where it has more, its last, which stands before the one behind it.
fn write(first: usize, behind: usize, out: &mut String) -> Result<(), AllocError> {
    if !out.is_empty() {
        out.push(' ')?;
    }
    let last = behind.saturating_sub(1);
    if first == last {
        return write!(out, "{first}");
    }
    write!(out, "{first}-{last}")
}

// Writes all stretches of bytes that differ, as far as an answer shows them, or that there is none.
pub fn all(image: &[u8], before: &[u8], out: &mut String) -> Result<(), AllocError> {
    let len = image.len().min(before.len());
    let mut from = 0;
    // There are no more stretches than bytes.
    for _ in image {
        match differing(image, before, from) {
            Some(first) if out.len() < LONGEST_ANSWER => {
                from = same(image, before, first).unwrap_or(len);
                write(first, from, out)?;
            }
            _ => break,
        }
    }
    if out.is_empty() {
        return out.push_str("nothing");
    }
    Ok(())
}
