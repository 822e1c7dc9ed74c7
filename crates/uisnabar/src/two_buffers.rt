// The judge on a memory in two buffers, document 02, M-109: the library's function hands on what it is given.
ghost use Rattle.std.specs.Prelude.{◌≡◌};
ghost use Rattle.reply.specs.Reply.{returned, replied};
ghost use Rattle.split_spec.specs.Split.{split_parts_of, judge_split_of};

use uisnabar_split::split_call;

// The judge, with public words in their own buffer.
pub fn uisnabar_judge_split<'a>(
    program: &[u8],
    public: &'a [u8],
    rest: &'a [u8],
    pc: u64,
    fp: u64,
    exec: &[u8],
    ext: &[u8],
    answer: &mut [u8],
) -> u32
    ensures value { result ≡ returned (judge_split_of (split_parts_of program.now public.now rest.now pc fp exec.now ext.now)) answer.old }
    ensures answer_after { answer.new ≡ replied (judge_split_of (split_parts_of program.now public.now rest.now pc fp exec.now ext.now)) answer.old }
{
    split_call(program, public, rest, pc, fp, exec, ext, answer)
}
