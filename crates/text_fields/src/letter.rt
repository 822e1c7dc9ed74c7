// One of some letters.
ghost use Rattle.std.specs.Prelude.{◌≡◌, ◌≤◌, ◌<◌, length, drop, IfOk, position, ◌==◌};
ghost use Rattle.text_patterns.specs.Pattern.{parse};
ghost use Rattle.text_patterns.specs.Fields.{one};
ghost use Rattle.text_fields.specs.Digit.{index_in};
ghost use Rattle.text_fields.specs.Field.{Read, read_as};

use crate::{Field, Stop};

// A byte's number among some letters.
fn letter_value(letters: &[u8], byte: u8) -> Option<usize>
    ensures { result ≡ position (λ letter. letter == byte) letters.now }
{
    letters.iter().position(|letter| *letter == byte)
}

// stays: beside read_digit, which is timed: a digit's value is a subtraction, and a letter's number is looked for.

// One of some letters, by its number; those below low and above high are not allowed.
pub fn read_letter(
    text: &[u8],
    at: usize,
    letters: &[u8],
    low: u64,
    high: u64,
) -> Result<Field<u64>, Stop>
    requires inside { at ≤ length text.now }
    requires letters { high < length letters.now }
    ensures read { Read (one (index_in letters.now) low high) text.now at result }
    ensures told { result ≡ read_as text.now (parse (one (index_in letters.now) low high) (drop at text.now)) }
    ensures within { IfOk result (λ r. r.value ≤ high) }
{
    if text.len() <= at {
        return Err(Stop { at });
    }
    let Some(number) = letter_value(letters, text[at]) else {
        return Err(Stop { at });
    };
    let d = number as u64;
    if (d < low) | (high < d) {
        return Err(Stop { at });
    }
    Ok(Field {
        value: d,
        at: at + 1,
    })
}
