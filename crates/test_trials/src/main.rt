// Judges and tables parts that commands on standard input write, and prints each answer. tests/trials.py makes the
// commands and computes what must come out.
#![tactic(auto)]

mod command;
mod trial;

use std::io;
use trial::{End, Trial};

// Commands until one is malformed; the count sees to it that the program ends.
fn main(rt: HostRuntime) -> io::Result<()> {
    let mut trial = Trial::new();
    let mut input = rt.reader();
    for _ in 0..100000u32 {
        match trial.obey(&rt, &mut input) {
            Ok(()) => {}
            Err(End::Malformed) => return Ok(()),
            Err(End::Failed(e)) => return Err(e),
        }
    }
    Ok(())
}
