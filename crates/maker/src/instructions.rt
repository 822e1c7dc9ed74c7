// The twelve words of the instruction that three draws make, and of the one that ends the program:
// A, B, C; fA, fB, fC, fpC, fpAB; MUL, JUMP, AUX; DATA.
ghost use Rattle.std.specs.Prelude.{◌≡◌, ◌≤◌, ◌<◌};
ghost use Rattle.form.specs.Data.{data_word};
ghost use Rattle.form.specs.Instruction.{instruction_words};
ghost use Rattle.maker_draws.specs.Drawn.{drawn_number};
ghost use Rattle.maker_spec.specs.Made.{flat, op_picked, be_picked, count_picked, kind_picked, made, halt};

use crate::elements::op_of;
use form::data_word;
use maker_draws::KindDrawn;

fn data_of(c: u32) -> u32
    ensures { result ≡ data_word (op_picked c) (be_picked c) (count_picked c) }
{
    data_word(op_of(c), c / 6 % 2 == 1, 1 + c % 2) as u32
}

pub(crate) fn made_words(i: u32, kind: KindDrawn, a: u32, c: u32) -> [u32; 12]
    requires { (i ≤ 124) × (a < 32) × (c < 32) }
    ensures { result ≡ instruction_words (made flat 0 i (kind_picked (drawn_number kind) c) a c) }
{
    let slot = 32 + 8 * i;
    match kind {
        KindDrawn::Add => [a, slot, c, 0, 0, 0, 0, 0, 0, 0, 1, 0],
        KindDrawn::Mul => [a, slot, c, 0, 0, 0, 0, 0, 1, 0, 0, 0],
        KindDrawn::Deref => [slot, 0, slot + 1, 0, 1, 0, 0, 0, 0, 0, 2, 0],
        KindDrawn::Jump => [c % 2, i + 1, 0, 1, 1, 0, 1, 0, 0, 1, 0, 0],
        KindDrawn::Extension => [a % 16, 16 + a % 4, slot, 1, 1, 1, 0, 0, 0, 0, 0, data_of(c)],
    }
}

// Instruction n jumps to itself.
pub(crate) fn halt_words(n: u32) -> [u32; 12]
    ensures { result ≡ instruction_words (halt n) }
{
    [1, n, 0, 1, 1, 0, 1, 0, 0, 1, 0, 0]
}
