// Which of the five kinds an instruction's flags, opcode words and DATA make it.
ghost use Rattle.std.specs.Prelude.{◌≡◌};
ghost use Rattle.form.specs.Form.{flags_fit, opcode, plain, is_add, is_mul, is_deref, is_jump, well_formed};

use crate::Instruction;
use crate::data::is_data;

fn flags_fit(i: Instruction) -> bool
    ensures { result ≡ flags_fit i }
{
    (i.fa <= 1)
        & (i.fb <= 1)
        & (i.fc <= 1)
        & (i.fpc <= 1)
        & (i.fpab <= 1)
        & ((i.fa == 0) | (i.fpab == 0))
        & ((i.fb == 0) | (i.fpab == 0))
        & ((i.fc == 0) | (i.fpc == 0))
}

// The three opcode words.
fn opcode(i: Instruction, mul: u32, jump: u32, aux: u32) -> bool
    ensures { result ≡ opcode i mul jump aux }
{
    (i.mul == mul) & (i.jump == jump) & (i.aux == aux)
}

// No call, and no operand A or B that is fp + offset.
fn plain(i: Instruction) -> bool
    ensures { result ≡ plain i }
{
    (i.fpab == 0) & (i.data == 0)
}

fn is_add(i: Instruction) -> bool
    ensures { result ≡ is_add i }
{
    opcode(i, 0, 0, 1) & plain(i)
}

fn is_mul(i: Instruction) -> bool
    ensures { result ≡ is_mul i }
{
    opcode(i, 1, 0, 0) & plain(i)
}

fn is_deref(i: Instruction) -> bool
    ensures { result ≡ is_deref i }
{
    opcode(i, 0, 0, 2) & plain(i) & (i.fa == 0) & (i.fb == 1)
}

fn is_jump(i: Instruction) -> bool
    ensures { result ≡ is_jump i }
{
    opcode(i, 0, 1, 0) & plain(i) & (i.fc == 0)
}

// Whether an instruction is one of the five kinds. An extension has no opcode word; its DATA says the rest.
pub fn well_formed(i: Instruction) -> bool
    ensures { result ≡ well_formed i }
{
    flags_fit(i)
        & (is_add(i)
            | is_mul(i)
            | is_deref(i)
            | is_jump(i)
            | (opcode(i, 0, 0, 0) & is_data(i.data)))
}
