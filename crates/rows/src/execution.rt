// Execution rows.
ghost use Rattle.std.specs.Prelude.{◌≡◌, ◌+◌, ◌≤◌, length};
ghost use Rattle.rows.specs.Rows.{exec_at, exec_words, put_row};

use crate::Exec;
use crate::words::put_words;
use word::word_inside;

// A row whose 32 bytes are there: it is read with no test.
// stays: one line a column, in document 01's order; an array of the words read first would name each of them twice
pub fn exec_inside(s: &[u8], at: usize) -> Exec
    requires { at + 32 ≤ length s.now }
    ensures { result ≡ exec_at s.now at }
{
    Exec {
        pc: word_inside(s, at),
        fp: word_inside(s, at + 4),
        addrA: word_inside(s, at + 8),
        addrB: word_inside(s, at + 12),
        addrC: word_inside(s, at + 16),
        valueA: word_inside(s, at + 20),
        valueB: word_inside(s, at + 24),
        valueC: word_inside(s, at + 28),
    }
}

// The row's 32 bytes; a buffer of another length is left as it is.
pub fn put_exec(s: &mut [u8], x: Exec)
    ensures { s.new ≡ put_row s.old 32 (exec_words x) }
{
    put_words(
        s,
        &[
            x.pc, x.fp, x.addrA, x.addrB, x.addrC, x.valueA, x.valueB, x.valueC,
        ],
    );
}
