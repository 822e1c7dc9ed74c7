// The rules of one extension row: the first that fails, and what its lookup found.
#![tactic(auto)]

mod accumulation;
mod ext_quick;
mod extension;
mod finding;

ghost use Rattle.std.specs.Prelude.{◌≡◌, [], ◌/◌, ◌<◌, length};
ghost use Rattle.rules.specs.Sizes.{given, tables};
ghost use Rattle.judge_spec.specs.Judged.{ext_failing};
ghost use Rattle.judge_lookups.specs.Joined.{joined};

use accumulation::accumulates;
use ext_quick::{idle, others_hold};
pub use extension::ext_rule;
pub use finding::ext_found;
use judge_lookups::{Memory, next_row};
use rows::ext_inside;

// The first extension rule that fails on row r of a table of n rows, and 0 where all hold. Only rules 6 to 9 take the
// polynomials where comparisons show that the others hold, and they none where nothing is done.
// stays: a number, and 0 where all hold, as the definition `ext_failing` of judge_spec, specs/Judged, has it.
pub fn ext_failing(memory: Memory, ext: &[u8], n: usize, r: usize) -> u32
    requires { (n ≡ length ext.now / 120) × (r < n) }
    ensures { result ≡ ext_failing (given [] (joined memory.entry)) (tables [] ext.now) r }
{
    let x = ext_inside(ext, 120 * r);
    let y = ext_inside(ext, 120 * next_row(n, r));
    if others_hold(memory, x, y) {
        if idle(x) {
            return 0;
        }
        return accumulates(ext, r, 0);
    }
    ext_rule(memory, ext, r)
}
