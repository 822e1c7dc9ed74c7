// What the rules of both tables ask alike: a cell of the memory and what was found there, a gate times what must be 0,
// the first rule that fails, and the row paired with one.
#![tactic(auto)]

mod buffers;
mod finding;
mod lookup;

ghost use Rattle.std.specs.Prelude.{◌≡◌, ◌<◌};
ghost use Rattle.rules.specs.Given.{zero?, next};
ghost use Rattle.word.specs.Word.{◌-ₚ◌, ◌*ₚ◌};
ghost use Rattle.judge_lookups.specs.Numbered.{first_failing};

pub use buffers::Memory;
pub use finding::nothing;
pub use lookup::five_held;

// A gate times what must be 0 where it is open. Most gates are shut, and in a table that is accepted the two are equal:
// then nothing is computed.
pub fn gated(gate: u32, x: u32, y: u32) -> bool
    ensures { result ≡ zero? (gate *ₚ (x -ₚ y)) }
{
    if gate == 0 {
        return true;
    }
    if x == y {
        return true;
    }
    word::mul(gate, word::sub(x, y)) == 0
}

// Of rules under their numbers the first that does not hold, and else what comes after them.
pub fn first_failing(rules: &[(u32, bool)], after: u32) -> u32
    ensures { result ≡ first_failing rules.now after }
{
    for (rule, holds) in rules {
        if !*holds {
            return *rule;
        }
    }
    after
}

// The row paired with row r of n: the next one, and the last with itself.
pub fn next_row(n: usize, r: usize) -> usize
    requires { r < n }
    ensures { (result ≡ next n r) × (result < n) }
{
    if r + 1 < n { r + 1 } else { r }
}
