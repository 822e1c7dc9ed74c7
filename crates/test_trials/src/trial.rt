// The four parts that commands write, and what each command does.
use crate::command::{Command, Malformed, Part, Span};
use answer::{Answer, six_numbers};
use console::read_full;
use judge::judge;
use std::io;
use std::io::Read;
use tabler::table;

// What ends the program: bytes that are no command, or too few of them, and what could not be written.
pub enum End {
    Malformed,
    Failed(io::Error),
}

impl From<Malformed> for End {
    fn from(_: Malformed) -> Self {
        End::Malformed
    }
}

impl From<io::Error> for End {
    fn from(e: io::Error) -> Self {
        End::Failed(e)
    }
}

// A part's bytes; `size` of them are handed in.
#[derive(Drop)]
struct Buffer {
    bytes: [u8; 65536],
    size: u16,
}

#[derive(Drop)]
pub struct Trial {
    program: Buffer,
    memory: Buffer,
    exec: Buffer,
    ext: Buffer,
    pc: u64,
    fp: u64,
}

// So many bytes of standard input, all of them.
fn read<const N: usize>(input: &mut impl Read) -> Result<[u8; N], Malformed> {
    let mut bytes = [0; N];
    if read_full(input, &mut bytes) < N {
        return Err(Malformed);
    }
    Ok(bytes)
}

// The answer's six numbers.
// stays: both test programs print an answer so; a crate for these two statements would be longer than they are.
fn show_answer(rt: &impl Print, answer: Answer) -> io::Result<()> {
    let six = six_numbers(answer);
    print!(rt; "{} {} {} ", six.verdict, six.part, six.place)?;
    print!(rt; "{} {} {} ", six.rule, six.expected, six.found)
}

// The bytes as digits, modulo a prime near 2^55: a change within six neighbours is always seen.
fn checksum(bytes: &[u8]) -> u64 {
    let mut sum: u64 = 1;
    for byte in bytes {
        sum = (sum * 257 + u64::from(*byte)) % 36028797018963913;
    }
    sum
}

impl Buffer {
    fn new() -> Self {
        Buffer {
            bytes: [0; 65536],
            size: 0,
        }
    }

    fn lent(&self) -> &[u8] {
        &self.bytes[..usize::from(self.size)]
    }

    fn lent_mut(&mut self) -> &mut [u8] {
        &mut self.bytes[..usize::from(self.size)]
    }

    // F: bytes of standard input, and what stands there repeated to `stop`.
    fn fill(&mut self, input: &mut impl Read, span: Span) -> Result<(), Malformed> {
        let at = usize::from(span.at);
        let size = usize::from(span.size);
        let end = at + size;
        let Some(front) = self.bytes.get_mut(at..end) else {
            return Err(Malformed);
        };
        if read_full(input, front) < size {
            return Err(Malformed);
        }
        for i in end..usize::from(span.stop) {
            self.bytes[i] = self.bytes[i - size];
        }
        Ok(())
    }
}

impl Trial {
    pub(crate) fn new() -> Self {
        Trial {
            program: Buffer::new(),
            memory: Buffer::new(),
            exec: Buffer::new(),
            ext: Buffer::new(),
            pc: 0,
            fp: 0,
        }
    }

    fn part(&mut self, part: Part) -> &mut Buffer {
        match part {
            Part::Program => &mut self.program,
            Part::Memory => &mut self.memory,
            Part::Exec => &mut self.exec,
            Part::Ext => &mut self.ext,
        }
    }

    // J: a line of the answer's six numbers.
    fn judge(&self, rt: &impl Print) -> io::Result<()> {
        let answer = judge(
            self.program.lent(),
            self.memory.lent(),
            self.pc,
            self.fp,
            self.exec.lent(),
            self.ext.lent(),
        );
        show_answer(rt, answer)?;
        println!(rt; "")
    }

    // T: a line of verdict, part, place, rule, and a checksum of each table.
    fn table(&mut self, rt: &impl Print) -> io::Result<()> {
        let exec = self.exec.lent_mut();
        let ext = self.ext.lent_mut();
        let answer = table(
            self.program.lent(),
            self.memory.lent(),
            self.pc,
            self.fp,
            exec,
            ext,
        );
        show_answer(rt, answer)?;
        println!(rt; "{} {} ", checksum(exec), checksum(ext))
    }

    // The next command. L is the length of a part that is handed in; S is pc and fp, eight bytes each.
    pub(crate) fn obey(&mut self, rt: &impl Print, input: &mut impl Read) -> Result<(), End> {
        match Command::try_from(read(input)?)? {
            Command::Fill(part, span) => self.part(part).fill(input, span)?,
            Command::Length(part, size) => self.part(part).size = size,
            Command::Start => {
                self.pc = u64::from_le_bytes(read(input)?);
                self.fp = u64::from_le_bytes(read(input)?);
            }
            Command::Judge => self.judge(rt)?,
            Command::Table => self.table(rt)?,
        }
        Ok(())
    }
}
