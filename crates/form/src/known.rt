// The form of an instruction that is known to be well-formed: no test is made again.
ghost use Rattle.std.specs.Prelude.{◌≡◌, true};
ghost use Rattle.form.specs.Form.{operand_of, well_formed, decode_of};
ghost use Rattle.form.specs.Opcodes.{kind_by};

use crate::data::extension_by;
use crate::{Form, Instruction, Kind, Mode, Operand};

fn operand_of(flag: u32, fp: u32, word: u32) -> Operand
    ensures { result ≡ operand_of flag fp word }
{
    let mode = if flag == 1 {
        Mode::Immediate
    } else if fp == 1 {
        Mode::Frame
    } else {
        Mode::Cell
    };
    Operand { mode, word }
}

// By the opcode words alone.
fn kind_by(i: Instruction) -> Kind
    ensures { result ≡ kind_by i }
{
    if i.aux == 1 {
        return Kind::Add;
    }
    if i.aux == 2 {
        return Kind::Deref;
    }
    if i.mul == 1 {
        return Kind::Mul;
    }
    if i.jump == 1 {
        return Kind::Jump;
    }
    extension_by(i.data)
}

pub fn decode_known(i: Instruction) -> Form
    requires { well_formed i ≡ true }
    ensures { decode_of i ≡ Some result }
{
    Form {
        kind: kind_by(i),
        a: operand_of(i.fa, i.fpab, i.a),
        b: operand_of(i.fb, i.fpab, i.b),
        c: operand_of(i.fc, i.fpc, i.c),
    }
}
