// Extension rows.
ghost use Rattle.std.specs.Prelude.{◌≡◌, ◌+◌, ◌≤◌, ◌<◌, ◌^◌, length, get_or};
ghost use Rattle.rows.specs.Rows.{five_at, ext_at, ext_words, put_row};

use crate::Ext;
use crate::words::put_from;
use word::word_inside;

// stays: five reads side by side; a loop that fills an array would be no shorter, and writes it twice
fn five_inside(s: &[u8], at: usize) -> [u32; 5]
    requires { at + 20 ≤ length s.now }
    ensures { result ≡ five_at s.now at }
{
    [
        word_inside(s, at),
        word_inside(s, at + 4),
        word_inside(s, at + 8),
        word_inside(s, at + 12),
        word_inside(s, at + 16),
    ]
}

// A row whose 120 bytes are there: it is read with no test.
pub fn ext_inside(s: &[u8], at: usize) -> Ext
    requires { at + 120 ≤ length s.now }
    ensures { result ≡ ext_at s.now at }
{
    let first = five_inside(s, at);
    let second = five_inside(s, at + 20);
    Ext {
        start: first[0],
        add: first[1],
        mul: first[2],
        peq: first[3],
        len: first[4],
        idxA: second[0],
        idxB: second[1],
        idxR: second[2],
        be: second[3],
        base: second[4],
        vA: five_inside(s, at + 40),
        vB: five_inside(s, at + 60),
        comp: five_inside(s, at + 80),
        res: five_inside(s, at + 100),
    }
}

// The row's 120 bytes; a buffer of another length is left as it is.
pub fn put_ext(s: &mut [u8], x: Ext)
    ensures { s.new ≡ put_row s.old 120 (ext_words x) }
{
    if s.len() != 120 {
        return;
    }
    put_from(
        s,
        0,
        &[
            x.start, x.add, x.mul, x.peq, x.len, x.idxA, x.idxB, x.idxR, x.be, x.base,
        ],
    );
    put_from(s, 40, &x.vA);
    put_from(s, 60, &x.vB);
    put_from(s, 80, &x.comp);
    put_from(s, 100, &x.res);
}
