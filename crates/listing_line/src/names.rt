// Names of operations and modes: a letter of a range, and the letters behind it.
ghost use Rattle.std.specs.Prelude.{◌≡◌, ◌≤◌, length};
ghost use Rattle.text_patterns.specs.Pattern.{lit, done};
ghost use Rattle.text_fields.specs.Field.{Read, Passed};
ghost use Rattle.listing_line.specs.Line.{of_three, kind_rest, op_tail, modes};

use listing_forms::Span;
use text_fields::{Field, Stop, read_letter, read_literal, read_name};

// stays: kinds, operations and modes are numbers, as listing_forms takes them: its ranges are from number to number.

// The letters behind the first of three names, by its number.
fn rest_of_three(
    text: &[u8],
    letter: Field<u64>,
    zero: &[u8],
    one: &[u8],
    two: &[u8],
) -> Result<Field<u64>, Stop>
    requires { letter.at ≤ length text.now }
    ensures { Read (lit (of_three zero.now one.now two.now letter.value) (done letter.value)) text.now letter.at result }
{
    let number = letter.value;
    match number {
        0 => read_name(text, letter.at, zero, number),
        1 => read_name(text, letter.at, one, number),
        _ => read_name(text, letter.at, two, number),
    }
}

// A mode of a range, by its number.
pub(crate) fn read_mode(text: &[u8], at: usize, range: Span) -> Result<Field<u64>, Stop>
    requires { (at ≤ length text.now) × (range.low ≤ range.high) × (range.high ≤ 2) }
    ensures { Read (modes range) text.now at result }
{
    let letter = read_letter(text, at, b"icf", range.low, range.high)?;
    rest_of_three(text, letter, b"mm:", b"ell:", b"p:")
}

// The letters behind the first of another kind's.
fn rest_of_kind(text: &[u8], kind: Field<u64>) -> Result<usize, Stop>
    requires { kind.at ≤ length text.now }
    ensures { Passed (kind_rest kind.value) text.now kind.at result }
{
    let number = kind.value;
    match number {
        0 => read_literal(text, kind.at, b"dd"),
        1 => read_literal(text, kind.at, b"ul"),
        2 => read_literal(text, kind.at, b"eref"),
        _ => read_literal(text, kind.at, b"ump"),
    }
}

// What is left of an op's text behind its first letter.
pub(crate) fn read_op(text: &[u8], kind: Field<u64>) -> Result<Field<u64>, Stop>
    requires { kind.at ≤ length text.now }
    ensures { Read (op_tail kind.value) text.now kind.at result }
{
    if kind.value == 4 {
        let op = read_letter(text, kind.at, b"amp", 0, 2)?;
        return rest_of_three(text, op, b"dd", b"ul", b"eq");
    }
    let at = rest_of_kind(text, kind)?;
    Ok(Field { value: 0, at })
}
