// A number in decimal with no leading zero, and the byte that ends it.
ghost use Rattle.std.specs.Prelude.{◌≡◌, ◌^◌, ◌≤◌, ◌<◌, length, drop, IfOk};
ghost use Rattle.text_patterns.specs.Pattern.{parse};
ghost use Rattle.text_patterns.specs.Fields.{number};
ghost use Rattle.text_fields.specs.Digit.{decimal_value, next_digit};
ghost use Rattle.text_fields.specs.Field.{Read, read_as};

use crate::digit::decimal_value;
use crate::{Field, Stop};

// The digits of x and one more, where a byte may follow them.
fn next_digit(x: u64, high: u64, byte: u8) -> Option<u64>
    requires { (x ≤ high) × (high < 2 ^ 60) }
    ensures { result ≡ next_digit x high byte }
{
    let d = decimal_value(byte)?;
    if 0 < x {
        let y = 10 * x + d;
        if y <= high {
            return Some(y);
        }
    }
    None
}

// A number from low, which is 0 or 1 and bounds its first digit, to high.
pub fn read_number(text: &[u8], at: usize, low: u64, high: u64, end: u8) -> Result<Field<u64>, Stop>
    requires inside { at ≤ length text.now }
    requires ordered { low ≤ high }
    requires small { high < 2 ^ 60 }
    ensures read { Read (number decimal_value low high end) text.now at result }
    ensures told { result ≡ read_as text.now (parse (number decimal_value low high end) (drop at text.now)) }
    ensures within { IfOk result (λ r. r.value ≤ high) }
{
    if text.len() <= at {
        return Err(Stop { at });
    }
    let Some(d) = decimal_value(text[at]) else {
        return Err(Stop { at });
    };
    if (d < low) | (high < d) {
        return Err(Stop { at });
    }
    let mut x = d;
    for i in at + 1..text.len() {
        let byte = text[i];
        if byte == end {
            return Ok(Field {
                value: x,
                at: i + 1,
            });
        }
        let Some(y) = next_digit(x, high, byte) else {
            return Err(Stop { at: i });
        };
        x = y;
    }
    Err(Stop { at: text.len() })
}
