// DATA both ways.
ghost use Rattle.std.specs.Prelude.{◌≡◌, ◌≤◌};
ghost use Rattle.form.specs.Data.{data_word, read_data};
ghost use Rattle.form.specs.Opcodes.{is_call, op_by, extension_by};

use crate::{Kind, Op};

// The largest number of elements, 2^20.
const MOST: u32 = 1048576;

// The DATA of an operation on n elements.
pub fn data_word(op: Op, be: bool, n: u32) -> u64
    ensures { result ≡ data_word op be n }
{
    let rest = 2 * u64::from(be) + 32 * u64::from(n);
    match op {
        Op::Add => rest + 4,
        Op::Mul => rest + 8,
        Op::Peq => rest + 16,
    }
}

// Whether a DATA word names a call.
pub(crate) fn is_data(data: u32) -> bool
    ensures { result ≡ is_call (read_data «data») }
{
    let n = data / 32;
    let rest = data % 32;
    (1 <= n) & (n <= MOST) & matches!(rest, 4 | 6 | 8 | 10 | 16 | 18)
}

fn op_by(rest: u32) -> Op
    ensures { result ≡ op_by rest }
{
    if rest < 8 {
        return Op::Add;
    }
    if rest < 16 {
        return Op::Mul;
    }
    Op::Peq
}

// The kind of an instruction whose DATA is known to name a call.
pub(crate) fn extension_by(data: u32) -> Kind
    ensures { result ≡ extension_by «data» }
{
    let rest = data % 32;
    Kind::Extension {
        op: op_by(rest),
        be: rest / 2 % 2 == 1,
        n: data / 32,
    }
}
