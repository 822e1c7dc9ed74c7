// Words modulo p, and words in bytes.
#![tactic(auto)]

mod bytes;

ghost use Rattle.std.specs.Prelude.{◌≡◌, ◌<◌, ◌%◌};
ghost use Rattle.word.specs.Word.{p, ◌+ₚ◌, ◌-ₚ◌, ◌*ₚ◌};

pub use bytes::{clear, put_word, word_at, word_inside};

// 2^31 - 2^24 + 1
pub const P: u64 = 2130706433;

pub fn reduced(x: u64) -> u32
    ensures { (result ≡ x % p) × (result < p) }
{
    (x % P) as u32
}

// Words are below p, and their sum is reduced by one test; any other number takes the remainder.
pub fn add(x: u32, y: u32) -> u32
    ensures { result ≡ x +ₚ y }
{
    if (x < 2130706433) & (y < 2130706433) {
        let s = x + y;
        return if s < 2130706433 { s } else { s - 2130706433 };
    }
    reduced(u64::from(x) + u64::from(y))
}

// 3p is above every y, so the difference stays above 0.
pub fn sub(x: u32, y: u32) -> u32
    ensures { result ≡ x -ₚ y }
{
    if (x < 2130706433) & (y < 2130706433) {
        return if y <= x { x - y } else { x + (2130706433 - y) };
    }
    reduced(u64::from(x) + 3 * P - u64::from(y))
}

pub fn mul(x: u32, y: u32) -> u32
    ensures { result ≡ x *ₚ y }
{
    reduced(u64::from(x) * u64::from(y))
}
