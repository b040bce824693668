// The questions to one table, but for those to its entry cursor.
use crate::answers::Lookup;
use crate::entry::{Entry, Key};
use crate::given::number;
use crate::show::{View, digits, part};
use crate::trouble::{NoLine, Trouble};
use crate::{LONGEST_ANSWER, answers};
use capi::memtable::{
    bavo_check, bavo_contains, bavo_get, bavo_get_value, bavo_value, bavo_value_refusal,
};
use std::alloc::{AllocError, Global};

// So many bytes of the image from a place on, four to a group, but none that stand behind the longest answer: each has two digits.
fn bytes(image: &[u8], from: usize, len: usize, out: &mut String) -> Result<(), Trouble> {
    let stretch = part(image, from, len).ok_or(NoLine)?;
    if stretch.is_empty() {
        return Err(Trouble::NoLine);
    }
    let shown = stretch.get(..LONGEST_ANSWER / 2).unwrap_or(stretch);
    for group in shown.chunks(4) {
        if !out.is_empty() {
            out.push(' ')?;
        }
        for b in group {
            let [high, low] = digits(*b);
            out.push(char::from(high))?;
            out.push(char::from(low))?;
        }
    }
    Ok(())
}

// A lookup of a key.
fn get(image: &[u8], key: &Key, out: &mut String) -> Result<(), AllocError> {
    let r = bavo_get(image, key.bytes.as_slice(), key.number);
    match Lookup::try_from(r) {
        Ok(lookup) => lookup.write(image, out),
        Err(refused) => write!(out, "{refused}"),
    }
}

// Whether an entry is held; the line gives no value.
fn contains(image: &[u8], entry: &Entry<'_>, out: &mut String) -> Result<(), Trouble> {
    if !entry.is_bare() {
        return Err(Trouble::NoLine);
    }
    let key = entry.key.bytes.as_slice();
    let r = bavo_contains(image, key, entry.key.number, entry.kind);
    Ok(answers::presence(r, out)?)
}

// What a line asks of the table with this image.
pub fn ask(alloc: Global, words: &[&[u8]], image: &[u8], out: &mut String) -> Result<(), Trouble> {
    match words {
        [b"bytes", _, from, len] => bytes(image, number(from)?, number(len)?, out)?,
        [b"check", _] if bavo_check(image) => out.push_str("sound")?,
        [b"check", _] => out.push_str("not sound")?,
        [b"get", _, key] => get(image, &Key::new(alloc, key)?, out)?,
        [b"get_value", _, key] => {
            let key = Key::new(alloc, key)?;
            let value = bavo_get_value(image, key.bytes.as_slice(), key.number);
            View::new(image, value).write_at(None, out)?
        }
        [b"contains", _, entry] => contains(image, &Entry::new(alloc, entry)?, out)?,
        [b"value", _, node] => {
            View::new(image, bavo_value(image, number(node)?)).write_at(None, out)?
        }
        [b"value_refusal", _, node] => {
            write!(out, "{}", bavo_value_refusal(image, number(node)?))?
        }
        _ => return Err(Trouble::NoLine),
    }
    Ok(())
}
