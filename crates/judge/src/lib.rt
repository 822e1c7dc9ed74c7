// The judge: a program, a memory, a start and two tables, to an answer. It writes nothing.
#![tactic(auto)]

mod bus;
mod stage;

ghost use Rattle.std.specs.Prelude.{◌≡◌, ◌++◌, ◌<◌, ◌^◌, length};
ghost use Rattle.judge_spec.specs.Judged.{judge_of};
ghost use Rattle.judge_lookups.specs.Memory.{SeamBetween};

use answer::{Answer, Refusal};
use inputs::bad_part;
use judge_lookups::Memory;
use stage::Parts;

// The judge of a memory in one buffer: the first of two is empty.
pub fn judge(program: &[u8], memory: &[u8], pc: u64, fp: u64, exec: &[u8], ext: &[u8]) -> Answer
    ensures { result ≡ judge_of (record {
      program = program.entry.now;
      memory = memory.now;
      exec = exec.now;
      ext = ext.now;
      pc = pc;
      fp = fp;
    }) }
{
    judge_two(program, &memory[..0], memory, pc, fp, exec, ext)
}

// The judge of a memory that two buffers hold, one behind the other. SIZE comes first; what is left is
// `Parts::words_answer`'s.
pub fn judge_two<'a>(
    program: &[u8],
    public: &'a [u8],
    rest: &'a [u8],
    pc: u64,
    fp: u64,
    exec: &[u8],
    ext: &[u8],
) -> Answer
    requires seam_between { SeamBetween public.now }
    requires rest_len_bound { length (public.now ++ rest.now) < 2 ^ 64 }
    ensures { result ≡ judge_of (record {
      program = program.entry.now;
      memory = public.now ++ rest.now;
      exec = exec.now;
      ext = ext.now;
      pc = pc;
      fp = fp;
    }) }
{
    let part = bad_part(
        program.len(),
        public.len() + rest.len(),
        exec.len(),
        ext.len(),
    );
    if part != 0 {
        return Err(Refusal::Size { part, place: 0 });
    }
    let parts = Parts {
        program,
        memory: Memory { public, rest },
        pc,
        fp,
        exec,
        ext,
    };
    parts.words_answer()
}
