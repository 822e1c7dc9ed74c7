// A jump of any number of draws, and a host's start in the stream of one seed. Document 02, M-106.
#![tactic(auto)]

ghost use Rattle.std.specs.Prelude.{◌≡◌, ◌*◌, ◌^◌, ◌<◌};
ghost use Rattle.stream_spec.specs.Stream.{advances, after};
ghost use Rattle.stream_spec.specs.Pairs.{applied};
ghost use Rattle.stream_spec.specs.Host.{start_of};

use answer::{Answer, Refusal};
use draw::{Generator, wrapping_product};
use stream_pairs::pairs;
use stream_spec::Pair;

// A pair applied to a state.
fn apply(pair: Pair, s: u64) -> u64
    ensures { result ≡ applied pair s }
{
    wrapping_product(pair.multiplier, s).wrapping_add(pair.increment)
}

// k·2^from draws: the table's pair of 2^i draws for each bit i of that number.
fn leap(s: u64, k: u64, from: usize) -> u64
    requires { k * 2 ^ from < 2 ^ 64 }
    ensures { result ≡ advances (k * 2 ^ from) s }
{
    let table = pairs();
    let mut state = s;
    let mut left = k;
    for i in from..64 {
        if left == 0 {
            break;
        }
        // also where the bit is clear: a choice between two numbers takes less time than a way that is guessed
        let led = apply(table[i], state);
        if left % 2 == 1 {
            state = led;
        }
        left /= 2;
    }
    state
}

// The generator so many draws further on.
pub fn jump(generator: Generator, draws: u64) -> Generator
    ensures { result ≡ after draws generator }
{
    Generator {
        state: leap(generator.state, draws, 0),
    }
}

// To where a host starts: 2^40 draws further on than the host before it. A refusal leaves the generator as it came.
pub fn start(generator: &mut Generator, host: u64) -> Answer
    ensures value { result ≡ (start_of generator.old host).answer }
    ensures generator_after { generator.new ≡ (start_of generator.old host).generator }
{
    if 16777216 <= host {
        return Err(Refusal::Host);
    }
    generator.state = leap(generator.state, host, 40);
    Ok(())
}
