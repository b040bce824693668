// Made by tools/moving from crates/table/src/words.rt: its bodies, other contracts.
// The words of an image, and bytes written to it.
ghost use Rattle.std.specs.Prelude.{◌≡◌, ◌+◌, ◌<◌, ◌≤◌, length};

// The u32 at o, low byte first.
pub(crate) fn get_word(s: &[u8], o: usize) -> u32
    requires { o + 4 ≤ length s.now }
{
    u32::from_le_bytes([s[o], s[o + 1], s[o + 2], s[o + 3]])
}

// The same as a number of the machine.
pub(crate) fn get_wide(s: &[u8], o: usize) -> usize
    requires { o + 4 ≤ length s.now }
    ensures { result < 4294967296 }
{
    get_word(s, o) as usize
}

// The u64 at o, low byte first: two words, whose law it shares, in place of eight indices. That its eight bytes lie in the image is
// asked here and of a tag read and written, in the same words: a type for it would be one image's.
pub(crate) fn get_u64(s: &[u8], o: usize) -> u64
    requires { o + 8 ≤ length s.now }
{
    let low = get_word(s, o);
    let high = get_word(s, o + 4);
    u64::from(low) + (u64::from(high) << 32)
}

// Writes the low 32 bits of v at o, low byte first.
pub(crate) fn put_word(s: &mut [u8], o: usize, v: usize)
    requires { o + 4 ≤ length s.old }
    ensures { length s.new ≡ length s.old }
{
    let low = (v & 0xffff_ffff) as u32;
    put_bytes(s, o, &low.to_le_bytes());
}

// Writes the bytes b at a place. The library's copy_from_slice would need memmove, which the archive for C asks of nobody.
pub(crate) fn put_bytes(s: &mut [u8], at: usize, b: &[u8])
    requires { at + length b.now ≤ length s.old }
    ensures { length s.new ≡ length s.old }
{
    for i in 0..b.len() {
        s[at + i] = b[i];
    }
}
