// 14 words to 12, an instruction at a time.
ghost use Rattle.std.specs.Prelude.{◌≡◌};
ghost use Rattle.edition_spec.specs.Translation.{three_form, carried, deref_form, exchanged, translated};

use edition_machine::Encoded;
use form::Instruction;

fn three_form(e: Encoded, c: u32, fc: u32, fpc: u32) -> Instruction
    ensures { result ≡ three_form e c fc fpc }
{
    Instruction {
        a: e.a,
        b: e.b,
        c,
        fa: e.fa,
        fb: e.fb,
        fc,
        fpc,
        fpab: 0,
        mul: e.mul,
        jump: e.jump,
        aux: e.add,
        data: 0,
    }
}

// ADD, MUL, JUMP: a C flag of 1 becomes fp + 0.
fn carry(e: Encoded) -> Instruction
    ensures { result ≡ carried e }
{
    if e.fc == 1 {
        three_form(e, 0, 0, 1)
    } else {
        three_form(e, e.c, 0, 0)
    }
}

fn deref_form(alpha: u32, beta: u32, c: u32, fc: u32, fpc: u32) -> Instruction
    ensures { result ≡ deref_form alpha beta c fc fpc }
{
    Instruction {
        a: alpha,
        b: beta,
        c,
        fa: 0,
        fb: 1,
        fc,
        fpc,
        fpab: 0,
        mul: 0,
        jump: 0,
        aux: 2,
        data: 0,
    }
}

// DEREF: operand C is β, and operand B is γ.
fn exchange(e: Encoded) -> Instruction
    ensures { result ≡ exchanged e }
{
    if e.aux1 == 1 {
        deref_form(e.a, e.c, e.b, e.fb, 0)
    } else {
        deref_form(e.a, e.c, 0, 0, 1)
    }
}

pub fn translation(e: Encoded) -> Instruction
    ensures { result ≡ translated e }
{
    if e.deref == 1 { exchange(e) } else { carry(e) }
}
