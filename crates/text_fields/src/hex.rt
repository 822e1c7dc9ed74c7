// Sixteen lower-case hex digits, all 64 bits.
ghost use Rattle.std.specs.Prelude.{true, ◌≡◌, ◌+◌, ◌≤◌, length, drop};
ghost use Rattle.text_patterns.specs.Pattern.{parse, got};
ghost use Rattle.text_patterns.specs.Fields.{digits};
ghost use Rattle.text_fields.specs.Digit.{hex_value, every, hex_at};
ghost use Rattle.text_fields.specs.Field.{Read, read_as};

use crate::digit::{is_hex, known_hex};
use crate::{Field, Stop};

// Whether the sixteen bytes from a place on are digits: no test waits for the one before it.
fn all_hex(text: &[u8], at: usize) -> bool
    requires { at + 16 ≤ length text.now }
    ensures { result ≡ every (hex_at text.now at) 16 }
{
    let mut good = true;
    for k in 0..16 {
        good &= is_hex(text[at + k]);
    }
    good
}

// The number that they make.
fn hex_number(text: &[u8], at: usize) -> u64
    requires { (at + 16 ≤ length text.now) × (every (hex_at text.now at) 16 ≡ true) }
    ensures { parse (digits 16 hex_value 16 0) (drop at text.now) ≡ got result (drop (at + 16) text.now) }
{
    let mut x = 0;
    for i in 0..16 {
        x = 16 * x + known_hex(text[at + i]);
    }
    x
}

// Digit by digit, to the byte that is none.
fn hex_by_digit(text: &[u8], at: usize) -> Result<Field<u64>, Stop>
    requires { at ≤ length text.now }
    ensures { Read (digits 16 hex_value 16 0) text.now at result }
{
    let mut x = 0;
    for k in 0..16 {
        let i = at + k;
        if text.len() <= i {
            return Err(Stop { at: i });
        }
        let byte = text[i];
        if !is_hex(byte) {
            return Err(Stop { at: i });
        }
        x = 16 * x + known_hex(byte);
    }
    Ok(Field {
        value: x,
        at: at + 16,
    })
}

// All sixteen at once; where that does not go, the place is looked for.
pub fn read_hex(text: &[u8], at: usize) -> Result<Field<u64>, Stop>
    requires { at ≤ length text.now }
    ensures read { Read (digits 16 hex_value 16 0) text.now at result }
    ensures told { result ≡ read_as text.now (parse (digits 16 hex_value 16 0) (drop at text.now)) }
{
    if 16 <= text.len() - at {
        if all_hex(text, at) {
            return Ok(Field {
                value: hex_number(text, at),
                at: at + 16,
            });
        }
    }
    hex_by_digit(text, at)
}
