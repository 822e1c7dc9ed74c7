// Words in four bytes, lowest first; and bytes that are all 0.
ghost use Rattle.std.specs.Prelude.{◌≡◌, ◌+◌, ◌≤◌, ◌<◌, length, get_or, replicate};
ghost use Rattle.word.specs.Bytes.{word_at, with_word};

// A byte of the buffer, 0 past its end.
fn byte_at(s: &[u8], at: usize) -> u8
    ensures { result ≡ get_or s.now at 0 }
{
    if at < s.len() { s[at] } else { 0 }
}

// The word where its four bytes may run past the end.
fn word_near_end(s: &[u8], at: usize) -> u32
    ensures { result ≡ word_at s.now at }
{
    if s.len() <= at {
        return 0;
    }
    u32::from_le_bytes([
        byte_at(s, at),
        byte_at(s, at + 1),
        byte_at(s, at + 2),
        byte_at(s, at + 3),
    ])
}

// A word whose four bytes are there: it is read with no test.
pub fn word_inside(s: &[u8], at: usize) -> u32
    requires { at + 4 ≤ length s.now }
    ensures { result ≡ word_at s.now at }
{
    u32::from_le_bytes([s[at], s[at + 1], s[at + 2], s[at + 3]])
}

// The word at a byte of the buffer; a byte past the end counts as 0.
pub fn word_at(s: &[u8], at: usize) -> u32
    ensures { result ≡ word_at s.now at }
{
    if s.len() < 4 || s.len() - 4 < at {
        return word_near_end(s, at);
    }
    word_inside(s, at)
}

// The four bytes of x from a byte on; nothing is written where they don't fit.
pub fn put_word(s: &mut [u8], at: usize, x: u32)
    ensures { s.new ≡ with_word s.old at x }
{
    if s.len() < 4 || s.len() - 4 < at {
        return;
    }
    s[at..at + 4].copy_from_slice(&x.to_le_bytes());
}

// Every byte 0: what a refused run leaves, and cells that nothing was drawn for.
pub fn clear(s: &mut [u8])
    ensures { s.new ≡ replicate (length s.old) 0 }
{
    s.fill(0);
}
