// The tabler: a program, a memory and a start, to the two tables of the run.
#![tactic(auto)]

mod fetch;
mod finish;
mod run;
mod tests;

ghost use Rattle.std.specs.Prelude.{◌≡◌, length};
ghost use Rattle.tabler_spec.specs.Tabled.{table_of, exec_after, ext_after};

use answer::{Answer, Refusal};
use inputs::bad_part;
use tests::table_words;

// The tabler. SIZE comes first; what is left is table_words's.
pub fn table(
    program: &[u8],
    memory: &[u8],
    pc: u64,
    fp: u64,
    exec: &mut [u8],
    ext: &mut [u8],
) -> Answer
    ensures value { result ≡ table_of program.now memory.now pc fp (length exec.old) (length ext.old) }
    ensures exec_after { exec.new ≡ exec_after program.now memory.now pc fp exec.old ext.old }
    ensures ext_after { ext.new ≡ ext_after program.now memory.now pc fp exec.old ext.old }
{
    let part = bad_part(program.len(), memory.len(), exec.len(), ext.len());
    if part != 0 {
        return Err(Refusal::Size { part, place: 0 });
    }
    table_words(program, memory, pc, fp, exec, ext)
}
