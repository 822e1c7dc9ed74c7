// A line is a name and numbers, each after a space.
use std::io;

pub(crate) fn number(rt: &impl Print, n: u64) -> io::Result<()> {
    print!(rt; " {n}")
}

pub(crate) fn word(rt: &impl Print, x: u32) -> io::Result<()> {
    number(rt, u64::from(x))
}

pub(crate) fn end(rt: &impl Print) -> io::Result<()> {
    rt.write_all(b"\n")
}

pub(crate) fn element(rt: &impl Print, name: &[u8], a: [u32; 5]) -> io::Result<()> {
    rt.write_all(name)?;
    for x in a {
        word(rt, x)?;
    }
    end(rt)
}

fn byte(rt: &impl Print, x: u8) -> io::Result<()> {
    number(rt, u64::from(x))
}

pub(crate) fn bytes(rt: &impl Print, s: &[u8]) -> io::Result<()> {
    for x in s {
        byte(rt, *x)?;
    }
    Ok(())
}
