// Lengths of the four parts.
ghost use Rattle.std.specs.Prelude.{◌≡◌, ◌<◌};
ghost use Rattle.rules.specs.Sizes.{is_power, power_of, program_fits, memory_fits};
ghost use Rattle.inputs.specs.Parts.{bad_part};

use crate::first_of;

// Whether n is 2^k for some k from low to high.
pub fn is_power(n: usize, low: u32, high: u32) -> bool
    requires { (0 < low) × (high < 64) }
    ensures { result ≡ is_power n low high }
{
    for k in low..high + 1 {
        if n == 1usize << k {
            return true;
        }
    }
    false
}

// Whether the bytes are units whose number is 2^k for some k from 8 on.
fn is_power_of(bytes: usize, unit: usize, high: u32) -> bool
    requires { (0 < unit) × (high < 64) }
    ensures { result ≡ power_of bytes unit high }
{
    (bytes % unit == 0) & is_power(bytes / unit, 8, high)
}

// Whether the bytes are 1 to 2^20 instructions.
pub fn program_fits(bytes: usize) -> bool
    ensures { result ≡ program_fits bytes }
{
    (bytes % 48 == 0) & (1 <= bytes / 48) & (bytes / 48 <= 1048576)
}

// Whether the bytes are 2^m words, m from 8 to 29.
pub fn memory_fits(bytes: usize) -> bool
    ensures { result ≡ memory_fits bytes }
{
    is_power_of(bytes, 4, 29)
}

// The lowest part of bad length, 0 where all four fit.
// stays: the promise is the equation with `bad_part` (specs/Parts.antt), the number that SIZE tells
pub fn bad_part(program: usize, memory: usize, exec: usize, ext: usize) -> u32
    ensures { result ≡ bad_part program memory exec ext }
{
    let p2 = memory_fits(memory);
    let p3 = is_power_of(exec, 32, 25);
    let p4 = is_power_of(ext, 120, 20);
    let upper = first_of(3, p3, first_of(4, p4, 0));
    first_of(1, program_fits(program), first_of(2, p2, upper))
}
