// Streams as C calls give them: document 02, M-106. The library's functions hand on to these.
#![tactic(auto)]

ghost use Rattle.std.specs.Prelude.{◌≡◌};
ghost use Rattle.uisnabar_stream.specs.StreamCalls.{
  jump_returned,
  jump_next_left,
  jump_answer_left,
  host_returned,
  host_next_left,
  host_answer_left,
};

use draw::Generator;
use reply::{misfit, tell, told_fits};
use stream::{jump, start};

// A jump of so many draws. ANSWER comes first.
pub fn jump_call(state: u64, draws: u64, next: &mut [u8], answer: &mut [u8]) -> u32
    ensures value { result ≡ jump_returned next.old answer.old }
    ensures next_after { next.new ≡ jump_next_left state draws next.old answer.old }
    ensures answer_after { answer.new ≡ jump_answer_left next.old answer.old }
{
    if !told_fits(next.len(), answer.len()) {
        return misfit();
    }
    let jumped = jump(Generator::new(state), draws);
    tell(Ok(()), jumped.state, next, answer)
}

// A host's start. ANSWER comes first; on HOST the seed is told as it came.
pub fn host_call(seed: u64, host: u64, next: &mut [u8], answer: &mut [u8]) -> u32
    ensures value { result ≡ host_returned seed host next.old answer.old }
    ensures next_after { next.new ≡ host_next_left seed host next.old answer.old }
    ensures answer_after { answer.new ≡ host_answer_left seed host next.old answer.old }
{
    if !told_fits(next.len(), answer.len()) {
        return misfit();
    }
    let mut generator = Generator::new(seed);
    let a = start(&mut generator, host);
    tell(a, generator.state, next, answer)
}
