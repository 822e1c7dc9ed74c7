// The judge on a memory in two buffers as a C call gives it: document 02, M-109. The library's function hands on to
// this.
#![tactic(auto)]

ghost use Rattle.std.specs.Prelude.{◌≡◌};
ghost use Rattle.reply.specs.Reply.{returned, replied};
ghost use Rattle.split_spec.specs.Split.{split_parts_of, judge_split_of};

use answer::Refusal;
use reply::reply;
use split::judge_split;

// The judge. ANSWER comes first, so nothing is judged for a caller who cannot be told.
pub fn split_call<'a>(
    program: &[u8],
    public: &'a [u8],
    rest: &'a [u8],
    pc: u64,
    fp: u64,
    exec: &[u8],
    ext: &[u8],
    answer: &mut [u8],
) -> u32
    ensures value { result ≡ returned (judge_split_of (split_parts_of program.now public.now rest.now pc fp exec.now ext.now)) answer.old }
    ensures answer_after { answer.new ≡ replied (judge_split_of (split_parts_of program.now public.now rest.now pc fp exec.now ext.now)) answer.old }
{
    if answer.len() != 24 {
        return reply(answer, Err(Refusal::Buffer));
    }
    let a = judge_split(program, public, rest, pc, fp, exec, ext);
    reply(answer, a)
}
