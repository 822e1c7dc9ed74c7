// The label writer: range, room, then line by line.
ghost use Rattle.std.specs.Prelude.{true, ◌++◌, ◌≡◌, ◌%◌, ◌≤◌, length};
ghost use Rattle.answer.specs.Answers.{answer_of, number_of};
ghost use Rattle.lines.specs.Line.{line};
ghost use Rattle.lines.specs.Putting.{Room, Put};
ghost use Rattle.label.specs.Label.{hex_digit, hex_digits, seed_text, ranged, label_of};
ghost use Rattle.label.specs.Writing.{written, buffered};

use crate::Recipe;
use answer::Refusal;
use lines::Out;

pub fn in_range(recipe: Recipe) -> bool
    ensures { result ≡ ranged recipe }
{
    (1..=2).contains(&recipe.version)
        && (10..=29).contains(&recipe.m)
        && (1..=124).contains(&recipe.n)
}

// The hex digit of a number's lowest four bits.
fn hex_digit(number: u64) -> u8
    ensures { result ≡ hex_digit (number % 16) }
{
    let d = (number % 16) as u8;
    if d < 10 {
        return 48 + d;
    }
    87 + d
}

// Sixteen hex digits, out of all 64 bits, and LF; from the last to the first.
fn hex_line(seed: u64) -> [u8; 17]
    ensures { result ≡ line (hex_digits 16 seed) }
{
    let mut bytes = [10u8; 17];
    let mut rest = seed;
    for i in (0..16).rev() {
        bytes[i] = hex_digit(rest);
        rest /= 16;
    }
    bytes
}

fn label_length(recipe: Recipe) -> u32
    requires { ranged recipe ≡ true }
    ensures { (result ≡ length (label_of recipe)) × (result ≤ 37) }
{
    match recipe.n {
        ..=9 => 35,
        10..=99 => 36,
        _ => 37,
    }
}

// The seed's line.
fn put_seed(seed: u64, out: &mut Out)
    requires { Room out.old (line (seed_text ++ hex_digits 16 seed)) }
    ensures { Put out.old (line (seed_text ++ hex_digits 16 seed)) out.new }
{
    out.put(b"seed=");
    out.put(&hex_line(seed));
}

// The four lines, each behind the one before it.
fn fill(recipe: Recipe, out: &mut Out)
    requires { Room out.old (label_of recipe) }
    ensures { Put out.old (label_of recipe) out.new }
{
    out.put_line(b"v=", u64::from(recipe.version));
    put_seed(recipe.seed, out);
    out.put_line(b"m=", u64::from(recipe.m));
    out.put_line(b"n=", u64::from(recipe.n));
}

// The label at the start of the buffer, and its length; the bytes after it stay, and a refusal changes none.
pub fn write_label(recipe: Recipe, buffer: &mut [u8]) -> Result<u32, Refusal>
    ensures value { answer_of result ≡ (written recipe (length buffer.old)).answer }
    ensures length_written { number_of result ≡ (written recipe (length buffer.old)).length }
    ensures buffer_after { buffer.new ≡ buffered recipe buffer.old }
{
    if !in_range(recipe) {
        return Err(Refusal::Size { part: 0, place: 0 });
    }
    let size = label_length(recipe);
    if buffer.len() < size as usize {
        return Err(Refusal::Size {
            part: 5,
            place: size,
        });
    }
    let mut out = Out {
        bytes: buffer,
        at: 0,
    };
    fill(recipe, &mut out);
    Ok(size)
}
