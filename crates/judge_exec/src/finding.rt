// What the lookup of an execution row found that a rule refuses.
ghost use Rattle.std.specs.Prelude.{◌≡◌, ◌*◌, ◌/◌, ◌<◌, length};
ghost use Rattle.rows.specs.Rows.{exec_at};
ghost use Rattle.rules.specs.Sizes.{word_of};
ghost use Rattle.rules.specs.Lookups.{exec_lookups, found_under};
ghost use Rattle.judge_lookups.specs.Joined.{joined};

use judge_lookups::{Memory, nothing};
use rows::exec_inside;
use rules::Found;

// Of another rule than 2 to 4 nothing is said.
// stays: a rule is told by its number, as in the definition `exec_lookups` of rules, specs/Lookups.
pub fn exec_found(memory: Memory, exec: &[u8], r: usize, rule: u32) -> Found
    requires { r < length exec.now / 32 }
    ensures { result ≡ found_under (length (joined memory.entry) / 4) (word_of (joined memory.entry)) (exec_lookups (exec_at exec.now (32 * r))) rule }
{
    let x = exec_inside(exec, 32 * r);
    match rule {
        2 => memory.found_one(x.addrA, x.valueA),
        3 => memory.found_one(x.addrB, x.valueB),
        4 => memory.found_one(x.addrC, x.valueC),
        _ => nothing(),
    }
}
