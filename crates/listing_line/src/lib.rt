// One line of a listing, read field by field up to the first byte that no valid line has there.
#![tactic(auto)]

mod names;

ghost use Rattle.std.specs.Prelude.{◌≡◌, ◌≤◌, length, drop};
ghost use Rattle.text_patterns.specs.Pattern.{parse};
ghost use Rattle.text_fields.specs.Field.{Read, read_as};
ghost use Rattle.listing_forms.specs.Forms.{greatest};
ghost use Rattle.listing_line.specs.Line.{last_end, operand_from, plain_kind, from_call, line_fields};

use form::{Form, Kind, Operand};
use listing_forms::{a_range, b_range, c_range, mode_of, op_of};
use names::{read_mode, read_op};
use text_fields::{Field, Stop, read_digit, read_letter, read_literal, read_number};

// The operand of a mode's number and a word.
fn operand_from(mode: u64, word: u64) -> Operand
    requires { word ≤ greatest }
    ensures { result ≡ operand_from mode word }
{
    Operand {
        mode: mode_of(mode),
        word: word as u32,
    }
}

// The kind of a number below 4.
fn plain_kind(kind: u64) -> Kind
    ensures { result ≡ plain_kind kind }
{
    match kind {
        0 => Kind::Add,
        1 => Kind::Mul,
        2 => Kind::Deref,
        _ => Kind::Jump,
    }
}

// The byte behind operand c.
fn last_end(kind: u64) -> u8
    ensures { result ≡ last_end kind }
{
    if kind == 4 { b' ' } else { b'\n' }
}

// What is left of a line behind operand c: be= and n= of an extension, and nothing of another kind.
fn read_call(
    text: &[u8],
    at: usize,
    kind: u64,
    op: u64,
    a: Operand,
    b: Operand,
    c: Operand,
) -> Result<Field<Form>, Stop>
    requires { at ≤ length text.now }
    ensures { Read (from_call kind op a b c) text.now at result }
{
    if kind == 4 {
        let at_be = read_literal(text, at, b"be=")?;
        let be = read_digit(text, at_be, 0, 1)?;
        let at_n = read_literal(text, be.at, b" n=")?;
        let n = read_number(text, at_n, 1, 1048576, b'\n')?;
        let kind = Kind::Extension {
            op: op_of(op),
            be: be.value == 1,
            n: n.value as u32,
        };
        return Ok(Field {
            value: Form { kind, a, b, c },
            at: n.at,
        });
    }
    let kind = plain_kind(kind);
    Ok(Field {
        value: Form { kind, a, b, c },
        at,
    })
}

// The fields of a line, each read behind the one before it.
fn read_fields(text: &[u8], from: usize) -> Result<Field<Form>, Stop>
    requires { from ≤ length text.now }
    ensures { Read line_fields text.now from result }
{
    let at_op = read_literal(text, from, b"op=")?;
    let kind = read_letter(text, at_op, b"amdjx", 0, 4)?;
    let op = read_op(text, kind)?;
    let at_a = read_literal(text, op.at, b" a=")?;
    let a_mode = read_mode(text, at_a, a_range(kind.value))?;
    let a = read_number(text, a_mode.at, 0, 2130706432, b' ')?;
    let at_b = read_literal(text, a.at, b"b=")?;
    let b_mode = read_mode(text, at_b, b_range(kind.value, a_mode.value))?;
    let b = read_number(text, b_mode.at, 0, 2130706432, b' ')?;
    let at_c = read_literal(text, b.at, b"c=")?;
    let c_mode = read_mode(text, at_c, c_range(kind.value))?;
    let c = read_number(text, c_mode.at, 0, 2130706432, last_end(kind.value))?;
    let a_read = operand_from(a_mode.value, a.value);
    let b_read = operand_from(b_mode.value, b.value);
    let c_read = operand_from(c_mode.value, c.value);
    read_call(text, c.at, kind.value, op.value, a_read, b_read, c_read)
}

// A line from a byte of the text on.
pub fn read_line(text: &[u8], from: usize) -> Result<Field<Form>, Stop>
    requires { from ≤ length text.now }
    ensures read { Read line_fields text.now from result }
    ensures told { result ≡ read_as text.now (parse line_fields (drop from text.now)) }
{
    read_fields(text, from)
}
