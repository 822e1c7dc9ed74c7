// What may stand where in a line, by numbers of kinds and modes; and the instruction of a form.
#![tactic(auto)]

mod instruction;

ghost use Rattle.std.specs.Prelude.{◌≡◌};
ghost use Rattle.listing_forms.specs.Ranges.{mode_of, op_of, a_range, b_range, c_range};

use form::{Mode, Op};
pub use instruction::form_instruction;

// The modes that are allowed, from one number to another.
// stays: `InRange` (specs/Forms.antt), by which a line's forms are told, reads these two numbers
#[derive(Clone, Copy)]
pub struct Span {
    pub low: u64,
    pub high: u64,
}

// The mode of a number: 0 an immediate, 1 a cell, 2 fp-relative.
// stays: a line's letters are read as numbers (text_fields), of which `a_range` (specs/Ranges.antt) and its laws speak
pub fn mode_of(number: u64) -> Mode
    ensures { result ≡ mode_of number }
{
    match number {
        0 => Mode::Immediate,
        1 => Mode::Cell,
        _ => Mode::Frame,
    }
}

// The operation of a number: 0 add, 1 mul, 2 peq.
pub fn op_of(number: u64) -> Op
    ensures { result ≡ op_of number }
{
    match number {
        0 => Op::Add,
        1 => Op::Mul,
        _ => Op::Peq,
    }
}

fn range(low: u64, high: u64) -> Span
    ensures { result ≡ record { low = low; high = high } }
{
    Span { low, high }
}

// The modes of operand a, b and c of a kind; b's follow a's.
pub fn a_range(kind: u64) -> Span
    ensures { result ≡ a_range kind }
{
    match kind {
        2 => range(1, 1),
        4 => range(0, 2),
        _ => range(0, 1),
    }
}

pub fn b_range(kind: u64, a: u64) -> Span
    ensures { result ≡ b_range kind a }
{
    match (kind, a) {
        (2, _) => range(0, 0),
        (_, 2) => range(2, 2),
        _ => range(0, 1), // fp stands beside fp alone
    }
}

pub fn c_range(kind: u64) -> Span
    ensures { result ≡ c_range kind }
{
    if kind == 3 { range(1, 2) } else { range(0, 2) }
}
