// A text's fields, one behind the other: each reader goes on from a place and stops at the first byte that its field
// cannot have.
#![tactic(auto)]

mod digit;
mod hex;
mod letter;
mod number;

ghost use Rattle.std.specs.Prelude.{◌≡◌, ◌≤◌, ◌<◌, length, drop, IfOk};
ghost use Rattle.text_patterns.specs.Pattern.{lit, done, parse};
ghost use Rattle.text_patterns.specs.Fields.{one};
ghost use Rattle.text_fields.specs.Digit.{decimal_value};
ghost use Rattle.text_fields.specs.Field.{Read, Passed, read_as, passed_as};

use digit::decimal_value;
pub use hex::read_hex;
pub use letter::read_letter;
pub use number::read_number;

// What is read at a place of a text: its value, and the place behind it.
#[derive(Clone, Copy)]
pub struct Field<T> {
    pub value: T,
    pub at: usize,
}

// The place where a text leaves every valid one.
#[derive(Clone, Copy)]
pub struct Stop {
    pub at: usize,
}

// stays: text and place are two parameters: one value of both must promise at each field that its text is the same.

// Fixed bytes, and the value that they stand for.
pub fn read_name(text: &[u8], at: usize, word: &[u8], value: u64) -> Result<Field<u64>, Stop>
    requires { at ≤ length text.now }
    ensures read { Read (lit word.now (done value)) text.now at result }
    ensures told { result ≡ read_as text.now (parse (lit word.now (done value)) (drop at text.now)) }
{
    for j in 0..word.len() {
        let i = at + j;
        if text.len() <= i || word[j] != text[i] {
            return Err(Stop { at: i });
        }
    }
    Ok(Field {
        value,
        at: at + word.len(),
    })
}

// Fixed bytes: the place behind them.
pub fn read_literal(text: &[u8], at: usize, word: &[u8]) -> Result<usize, Stop>
    requires { at ≤ length text.now }
    ensures read { Passed word.now text.now at result }
    ensures told { result ≡ passed_as text.now (parse (lit word.now (done 0)) (drop at text.now)) }
{
    let read = read_name(text, at, word, 0)?;
    Ok(read.at)
}

// One decimal digit of a range.
pub fn read_digit(text: &[u8], at: usize, low: u64, high: u64) -> Result<Field<u64>, Stop>
    requires inside { at ≤ length text.now }
    requires decimal { high < 10 }
    ensures read { Read (one decimal_value low high) text.now at result }
    ensures told { result ≡ read_as text.now (parse (one decimal_value low high) (drop at text.now)) }
    ensures within { IfOk result (λ r. r.value ≤ high) }
{
    if text.len() <= at {
        return Err(Stop { at });
    }
    let Some(d) = decimal_value(text[at]) else {
        return Err(Stop { at });
    };
    if (d < low) | (high < d) {
        return Err(Stop { at });
    }
    Ok(Field {
        value: d,
        at: at + 1,
    })
}
