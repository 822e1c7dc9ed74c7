// A number in decimal.
ghost use Rattle.std.specs.Prelude.{◌++◌, ◌≡◌, drop};
ghost use Rattle.lines.specs.Line.{decimal};

// The digits of a number, from the last to the first, in front of the last byte, and that byte.
pub(crate) fn ended_digits<'a>(number: u64, bytes: &'a mut [u8; 21]) -> &'a [u8]
    ensures { result.now ≡ decimal number ++ drop 20 bytes.old }
{
    let mut rest = number;
    for i in (0..20).rev() {
        bytes[i] = 48 + (rest % 10) as u8;
        if rest < 10 {
            return &bytes[i..];
        }
        rest /= 10;
    }
    // No number has more than 20 digits, so the loop has returned.
    &bytes[..]
}
