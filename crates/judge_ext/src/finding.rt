// What the lookup of an extension row found that a rule refuses.
ghost use Rattle.std.specs.Prelude.{◌≡◌, ◌*◌, ◌/◌, ◌<◌, length};
ghost use Rattle.rows.specs.Rows.{ext_at};
ghost use Rattle.rules.specs.Sizes.{word_of};
ghost use Rattle.rules.specs.Lookups.{ext_lookups, found_under};
ghost use Rattle.judge_lookups.specs.Joined.{joined};

use judge_lookups::{Memory, nothing};
use rows::ext_inside;
use rules::Found;

// Of another rule than 18 to 21 nothing is said.
// stays: a rule is told by its number, as in the definition `ext_lookups` of rules, specs/Lookups.
pub fn ext_found(memory: Memory, ext: &[u8], r: usize, rule: u32) -> Found
    requires { r < length ext.now / 120 }
    ensures { result ≡ found_under (length (joined memory.entry) / 4) (word_of (joined memory.entry)) (ext_lookups (ext_at ext.now (120 * r))) rule }
{
    let x = ext_inside(ext, 120 * r);
    match rule {
        18 => memory.found_one(x.idxA, x.base),
        19 => memory.found_five(x.idxA, x.vA),
        20 => memory.found_five(x.idxB, x.vB),
        21 => memory.found_five(x.idxR, x.res),
        _ => nothing(),
    }
}
