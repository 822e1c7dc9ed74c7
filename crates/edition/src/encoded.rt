// The 14 words of an instruction of draft 0.5.0, read from its bytes.
ghost use Rattle.std.specs.Prelude.{◌≡◌, ◌+◌, ◌≤◌, length};
ghost use Rattle.edition_machine.specs.Encoding.{encoded_at};

use edition_machine::Encoded;
use word::word_inside;

// An instruction whose 56 bytes are there: it is read with no test.
// stays: one line a word, in the draft's order; an array of the words read first would name each of them twice
pub(crate) fn encoded_inside(s: &[u8], at: usize) -> Encoded
    requires { at + 56 ≤ length s.now }
    ensures { result ≡ encoded_at s.now at }
{
    Encoded {
        a: word_inside(s, at),
        b: word_inside(s, at + 4),
        c: word_inside(s, at + 8),
        fa: word_inside(s, at + 12),
        fb: word_inside(s, at + 16),
        fc: word_inside(s, at + 20),
        add: word_inside(s, at + 24),
        mul: word_inside(s, at + 28),
        deref: word_inside(s, at + 32),
        jump: word_inside(s, at + 36),
        precompile: word_inside(s, at + 40),
        index: word_inside(s, at + 44),
        aux1: word_inside(s, at + 48),
        aux2: word_inside(s, at + 52),
    }
}
