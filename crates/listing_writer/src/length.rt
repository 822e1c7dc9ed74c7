// The length of a form's line, counted and not put.
ghost use Rattle.std.specs.Prelude.{◌≡◌, ◌+◌, ◌≤◌, length};
ghost use Rattle.lines.specs.Line.{decimal};
ghost use Rattle.listing_spec.specs.Listing.{op_text, operand_text, call_text, form_line};

use form::{Form, Kind, Mode, Operand};

// The digits of a word: one, and one more for each power of ten up to it.
fn digits(x: u32) -> usize
    ensures { (result ≡ length (decimal x)) × (result ≤ 10) }
{
    match x.checked_ilog10() {
        Some(more) => more as usize + 1,
        None => 1,
    }
}

// The mode's name and the digits.
fn operand_length(o: Operand) -> usize
    ensures { (result ≡ length (operand_text o)) × (result ≤ 15) }
{
    let n = digits(o.word);
    match o.mode {
        Mode::Immediate => 4 + n,
        Mode::Cell => 5 + n,
        Mode::Frame => 3 + n,
    }
}

// What stands behind op=, and be= and n= with their values.
fn kind_length(kind: Kind) -> usize
    ensures { (result ≡ length (op_text kind) + length (call_text kind)) × (result ≤ 22) }
{
    match kind {
        Kind::Add | Kind::Mul => 3,
        Kind::Deref => 5,
        Kind::Jump => 4,
        Kind::Extension { n, .. } => 12 + digits(n),
    }
}

// Four keys and LF are 13 bytes.
pub(crate) fn form_length(f: Form) -> usize
    ensures { (result ≡ length (form_line f)) × (result ≤ 80) }
{
    13 + kind_length(f.kind) + operand_length(f.a) + operand_length(f.b) + operand_length(f.c)
}
