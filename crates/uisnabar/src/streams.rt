// Streams from one seed, document 02, M-106: the library's functions hand on what they are given.
ghost use Rattle.std.specs.Prelude.{◌≡◌};
ghost use Rattle.uisnabar_stream.specs.StreamCalls.{
  jump_returned,
  jump_next_left,
  jump_answer_left,
  host_returned,
  host_next_left,
  host_answer_left,
};

use uisnabar_stream::{host_call, jump_call};

// A state so many draws further on.
pub fn uisnabar_jump(state: u64, draws: u64, next: &mut [u8], answer: &mut [u8]) -> u32
    ensures value { result ≡ jump_returned next.old answer.old }
    ensures next_after { next.new ≡ jump_next_left state draws next.old answer.old }
    ensures answer_after { answer.new ≡ jump_answer_left next.old answer.old }
{
    jump_call(state, draws, next, answer)
}

// A host's first state.
pub fn uisnabar_host(seed: u64, host: u64, next: &mut [u8], answer: &mut [u8]) -> u32
    ensures value { result ≡ host_returned seed host next.old answer.old }
    ensures next_after { next.new ≡ host_next_left seed host next.old answer.old }
    ensures answer_after { answer.new ≡ host_answer_left seed host next.old answer.old }
{
    host_call(seed, host, next, answer)
}
