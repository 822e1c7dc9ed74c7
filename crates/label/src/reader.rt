// The label reader: field by field, up to the first byte that no valid label has there.
ghost use Rattle.std.specs.Prelude.{◌≡◌};
ghost use Rattle.text_fields.specs.Field.{Read};
ghost use Rattle.label.specs.Reading.{reading_of, Reads};
ghost use Rattle.label.specs.Reader.{label, refused_at};

use crate::Recipe;
use answer::Refusal;
use text_fields::{Field, Stop, read_digit, read_hex, read_literal, read_number};

// A refused text has a place and no recipe.
fn refused(place: u32) -> Result<Recipe, Refusal>
    ensures { reading_of result ≡ refused_at place }
{
    Err(Refusal::Label { place })
}

// The fields, each read behind the one before it.
fn read_fields(text: &[u8]) -> Result<Field<Recipe>, Stop>
    ensures { Read label text.now 0 result }
{
    let at_version = read_literal(text, 0, b"v=")?;
    let version = read_digit(text, at_version, 1, 2)?;
    let at_seed = read_literal(text, version.at, b"\nseed=")?;
    let seed = read_hex(text, at_seed)?;
    let at_m = read_literal(text, seed.at, b"\nm=")?;
    let tens = read_digit(text, at_m, 1, 2)?;
    let units = read_digit(text, tens.at, 0, 9)?;
    let at_n = read_literal(text, units.at, b"\nn=")?;
    let n = read_number(text, at_n, 1, 124, b'\n')?;
    let recipe = Recipe {
        version: version.value as u32,
        seed: seed.value,
        m: (10 * tens.value + units.value) as u32,
        n: n.value as u32,
    };
    Ok(Field {
        value: recipe,
        at: n.at,
    })
}

// The recipe of a label; or the place where the text leaves every valid label.
pub fn read_label(text: &[u8]) -> Result<Recipe, Refusal>
    ensures { Reads text.now (reading_of result) }
{
    match read_fields(text) {
        Ok(read) => {
            if read.at < text.len() {
                return refused(read.at as u32); // nothing follows the last LF
            }
            Ok(read.value)
        }
        Err(stop) => refused(stop.at as u32),
    }
}
