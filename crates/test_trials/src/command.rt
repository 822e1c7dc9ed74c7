// A command: eight bytes, a kind, a part, and three numbers of two bytes.

// The bytes of a part that a command fills: `size` from `at` on, again and again up to `stop`.
#[derive(Clone, Copy)]
pub struct Span {
    pub at: u16,
    pub size: u16,
    pub stop: u16,
}

#[derive(Clone, Copy)]
pub enum Part {
    Program,
    Memory,
    Exec,
    Ext,
}

#[derive(Clone, Copy)]
pub enum Command {
    Fill(Part, Span),
    Length(Part, u16),
    Start,
    Judge,
    Table,
}

// Bytes that are no command.
#[derive(Clone, Copy)]
pub struct Malformed;

impl TryFrom<u8> for Part {
    type Error = Malformed;

    fn try_from(number: u8) -> Result<Self, Malformed> {
        match number {
            1 => Ok(Part::Program),
            2 => Ok(Part::Memory),
            3 => Ok(Part::Exec),
            4 => Ok(Part::Ext),
            _ => Err(Malformed),
        }
    }
}

impl TryFrom<[u8; 8]> for Command {
    type Error = Malformed;

    fn try_from(bytes: [u8; 8]) -> Result<Self, Malformed> {
        let [kind, part, at, at_high, size, size_high, stop, stop_high] = bytes;
        let span = Span {
            at: u16::from_le_bytes([at, at_high]),
            size: u16::from_le_bytes([size, size_high]),
            stop: u16::from_le_bytes([stop, stop_high]),
        };
        match kind {
            b'F' => Ok(Command::Fill(Part::try_from(part)?, span)),
            b'L' => Ok(Command::Length(Part::try_from(part)?, span.at)),
            b'S' => Ok(Command::Start),
            b'J' => Ok(Command::Judge),
            b'T' => Ok(Command::Table),
            _ => Err(Malformed),
        }
    }
}
