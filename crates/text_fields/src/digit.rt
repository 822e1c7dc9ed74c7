// What a byte is worth as a digit.
ghost use Rattle.std.specs.Prelude.{◌≡◌, ◌≤◌, ◌<◌, ltb};
ghost use Rattle.text_fields.specs.Digit.{hex_value, decimal_value, DigitOf};

// Whether a byte is a lower-case hex digit, with no branch: which of the two kinds it is cannot be foretold.
pub(crate) fn is_hex(byte: u8) -> bool
    ensures { result ≡ ltb (hex_value byte) 16 }
{
    ((48 <= byte) & (byte < 58)) | ((97 <= byte) & (byte < 103))
}

// The value of a byte that is a hex digit, with no branch: its low four bits, and 9 more for a letter.
pub(crate) fn known_hex(byte: u8) -> u64
    requires { hex_value byte < 16 }
    ensures { (result ≡ hex_value byte) × (result < 16) }
{
    let b = u64::from(byte);
    b % 16 + 9 * (b / 64)
}

// The value of a byte that is a decimal digit.
pub(crate) fn decimal_value(byte: u8) -> Option<u64>
    ensures { DigitOf decimal_value 10 byte result }
{
    match byte {
        b'0'..=b'9' => Some(u64::from(byte - b'0')),
        _ => None,
    }
}
