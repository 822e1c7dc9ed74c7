// Reads texts as labels and writes labels, and prints what came of each: tests/labels.py makes the input and what must
// come out.
#![tactic(auto)]

use answer::{Answer, six_numbers};
use console::read_full;
use label::{Recipe, read_label, write_label};
use std::io;

// The answer's six numbers.
// stays: both test programs print an answer so; a crate for these two statements would be longer than they are.
fn show_answer(rt: &impl Print, answer: Answer) -> io::Result<()> {
    let six = six_numbers(answer);
    print!(rt; "{} {} {} ", six.verdict, six.part, six.place)?;
    print!(rt; "{} {} {} ", six.rule, six.expected, six.found)
}

// A line of ten numbers: the answer's six, version, seed, m, n. A refused text reads as zeros.
fn show_reading(rt: &impl Print, text: &[u8]) -> io::Result<()> {
    let reading = read_label(text);
    let recipe = reading.unwrap_or(Recipe {
        version: 0,
        seed: 0,
        m: 0,
        n: 0,
    });
    show_answer(rt, reading.and(Ok(())))?;
    println!(rt;
        "{} {} {} {} ",
        recipe.version, recipe.seed, recipe.m, recipe.n
    )
}

// Records of a length byte and that many bytes of text; a record that is cut off ends them.
fn show_readings(rt: &impl Print, records: &[u8]) -> io::Result<()> {
    let mut left = records;
    while let Some((size, rest)) = left.split_first() {
        let Some((text, after)) = rest.split_at_checked(usize::from(*size)) else {
            return Ok(());
        };
        show_reading(rt, text)?;
        left = after;
    }
    Ok(())
}

// A line of five numbers, verdict, part, place, rule, length, then all 48 bytes in hex. The label is written to the
// first `room`.
fn show_writing(rt: &impl Print, recipe: Recipe, room: usize) -> io::Result<()> {
    let mut bytes = [46u8; 48];
    let Some(front) = bytes.get_mut(..room) else {
        return Ok(());
    };
    let written = write_label(recipe, front);
    show_answer(rt, written.and(Ok(())))?;
    print!(rt; "{} ", written.unwrap_or(0))?;
    for byte in bytes {
        print!(rt; "{byte:02x}")?;
    }
    println!(rt; "")
}

// The same of each version that is known: labels that fit, that do not, and recipes out of range.
fn show_version(rt: &impl Print, version: u32) -> io::Result<()> {
    let cases = [
        (0, 10, 1, 48),
        (0, 10, 1, 35),
        (0, 10, 1, 34),
        (0x12fffffff, 10, 9, 48),
        (0x00ffdb37cb0c5f43, 10, 9, 48),
        (0x2fffffff, 10, 10, 36),
        (0xffffffff2fffffff, 19, 10, 35),
        (0xffffffffffffffff, 20, 99, 48),
        (0x0123456789abcdef, 29, 100, 37),
        (0xfedcba9876543210, 29, 124, 37),
        (0xfedcba9876543210, 29, 124, 36),
        (0xfedcba9876543210, 29, 124, 0),
        (1, 9, 1, 48),
        (1, 30, 1, 48),
        (1, 10, 0, 48),
        (1, 10, 125, 48),
        (1, 0, 0, 0),
        (1, 4294967295, 4294967295, 48),
    ];
    for (seed, m, n, room) in cases {
        let recipe = Recipe {
            version,
            seed,
            m,
            n,
        };
        show_writing(rt, recipe, room)?;
    }
    Ok(())
}

fn show_other_versions(rt: &impl Print) -> io::Result<()> {
    let cases = [
        (0, 1, 10, 1, 48),
        (3, 1, 10, 1, 48),
        (4294967295, 1, 10, 1, 48),
        (2147483648, 1, 10, 1, 48),
        (257, 1, 10, 1, 48),
        (0, 1, 10, 1, 0),
        (3, 1, 10, 1, 0),
        (0, 0, 0, 0, 0),
        (3, 1, 30, 125, 48),
        (4294967295, 0xffffffffffffffff, 4294967295, 4294967295, 0),
    ];
    for (version, seed, m, n, room) in cases {
        let recipe = Recipe {
            version,
            seed,
            m,
            n,
        };
        show_writing(rt, recipe, room)?;
    }
    Ok(())
}

fn main(rt: HostRuntime) -> io::Result<()> {
    let mut space = [0u8; 65536];
    let got = read_full(&mut rt.reader(), &mut space);
    show_readings(&rt, &space[..got])?;
    show_version(&rt, 1)?;
    show_version(&rt, 2)?;
    show_other_versions(&rt)
}
