// The finder of range checks: document 02, M-108.
#![tactic(auto)]

mod triple;
mod walk;

ghost use Rattle.std.specs.Prelude.{◌≡◌, length};
ghost use Rattle.answer.specs.Answers.{answer_of, number_of};
ghost use Rattle.rules.specs.Sizes.{parts_of};
ghost use Rattle.range_spec.specs.Finder.{ranges_answer, ranges_found, finds_left};

use answer::Refusal;
use bus_tuples::ListedRows;
use lines::Out;
use walk::AcceptedRows;

// Row and bound of each range check of an accepted table, in row order, and how many there are; or the judge's refusal,
// or LIST. They are counted before any is written, as a refusal changes no byte.
pub fn find_ranges(
    program: &[u8],
    memory: &[u8],
    pc: u64,
    fp: u64,
    exec: &[u8],
    ext: &[u8],
    finds: &mut [u8],
) -> Result<u64, Refusal>
    ensures value { answer_of result ≡ ranges_answer (parts_of program.now memory.now pc fp exec.now ext.now) (length finds.old) }
    ensures found { number_of result ≡ ranges_found (parts_of program.now memory.now pc fp exec.now ext.now) (length finds.old) }
    ensures finds_after { finds.new ≡ finds_left (parts_of program.now memory.now pc fp exec.now ext.now) finds.old }
{
    judge::judge(program, memory, pc, fp, exec, ext)?;
    let rows = ListedRows { program, exec };
    let table = AcceptedRows { rows };
    let n = table.count_finds();
    if finds.len() / 8 < n {
        return Err(Refusal::ListShort { place: n as u32 });
    }
    let mut out = Out {
        bytes: finds,
        at: 0,
    };
    table.put_finds(n, &mut out);
    Ok(n as u64)
}
