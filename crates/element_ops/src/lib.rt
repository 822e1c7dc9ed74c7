// What an extension instruction does with elements: the term of two, how it is joined to what comes after it, and what
// stands after the last.
#![tactic(auto)]

ghost use Rattle.std.specs.Prelude.{◌≡◌};
ghost use Rattle.machine.specs.Extension.{term_of, joined, nothing};

use element::{peq, product, sum};
use form::Op;

pub fn none(op: Op) -> [u32; 5]
    ensures { result ≡ nothing op }
{
    match op {
        Op::Add | Op::Mul => [0; 5],
        Op::Peq => [1, 0, 0, 0, 0],
    }
}

fn term_of(op: Op, a: [u32; 5], b: [u32; 5]) -> [u32; 5]
    ensures { result ≡ term_of op a b }
{
    match op {
        Op::Add => sum(a, b),
        Op::Mul => product(a, b),
        Op::Peq => peq(a, b),
    }
}

fn join(op: Op, term: [u32; 5], rest: [u32; 5]) -> [u32; 5]
    ensures { result ≡ joined op term rest }
{
    match op {
        Op::Add | Op::Mul => sum(term, rest),
        Op::Peq => product(term, rest),
    }
}

// The term of a and b, joined to what comes after it.
pub fn with_term(op: Op, a: [u32; 5], b: [u32; 5], rest: [u32; 5]) -> [u32; 5]
    ensures { result ≡ joined op (term_of op a b) rest }
{
    join(op, term_of(op, a, b), rest)
}
