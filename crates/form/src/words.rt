// The 12 words of an instruction, read from the program's bytes.
ghost use Rattle.std.specs.Prelude.{◌≡◌, ◌+◌, ◌≤◌, length};
ghost use Rattle.form.specs.Instruction.{instruction_at};

use crate::Instruction;
use word::word_inside;

// An instruction whose 48 bytes are there: it is read with no test.
// stays: one line a word, in document 01's order; an array of the words read first would name each of them twice
pub fn instruction_inside(s: &[u8], at: usize) -> Instruction
    requires { at + 48 ≤ length s.now }
    ensures { result ≡ instruction_at s.now at }
{
    Instruction {
        a: word_inside(s, at),
        b: word_inside(s, at + 4),
        c: word_inside(s, at + 8),
        fa: word_inside(s, at + 12),
        fb: word_inside(s, at + 16),
        fc: word_inside(s, at + 20),
        fpc: word_inside(s, at + 24),
        fpab: word_inside(s, at + 28),
        mul: word_inside(s, at + 32),
        jump: word_inside(s, at + 36),
        aux: word_inside(s, at + 40),
        data: word_inside(s, at + 44),
    }
}
