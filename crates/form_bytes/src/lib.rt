// An instruction written as its 48 bytes.
#![tactic(auto)]

ghost use Rattle.std.specs.Prelude.{◌≡◌};
ghost use Rattle.form.specs.Instruction.{instruction_words};
ghost use Rattle.rows.specs.Rows.{put_row};

use form::Instruction;
use rows::put_words;

// The instruction's 48 bytes; a buffer of another length is left as it is.
pub fn put_instruction(s: &mut [u8], i: Instruction)
    ensures { s.new ≡ put_row s.old 48 (instruction_words i) }
{
    put_words(
        s,
        &[
            i.a, i.b, i.c, i.fa, i.fb, i.fc, i.fpc, i.fpab, i.mul, i.jump, i.aux, i.data,
        ],
    );
}
