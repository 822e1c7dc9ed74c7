// 7 BUS: where the walk over the execution rows found each push's pull in the same order, as in a tabler's tables, it
// is enough that no pull is left. Rounds settle groups in any order. What is left, as every refusal is, is counted.
ghost use Rattle.std.specs.Prelude.{◌≡◌, [], ◌/◌, length};
ghost use Rattle.judge_spec.specs.Judged.{bus};
ghost use Rattle.rules.specs.Sizes.{given, tables};
ghost use Rattle.bus_tuples.specs.Order.{pulled_by};
ghost use Rattle.bus_tuples.specs.Ready.{Listed, Flagged, Short};

use answer::Answer;
use bus_rounds::pairs_up;
use bus_tuples::next_pull;
use bus_windows::count_bus;

pub(crate) fn bus_answer(program: &[u8], exec: &[u8], ext: &[u8], pulled: usize) -> Answer
    requires listed { Listed program.now exec.now }
    requires flagged { Flagged ext.now }
    requires short { Short exec.now × Short ext.now }
    requires pulled_value { pulled ≡ pulled_by program.now exec.now ext.now (length exec.now / 32) }
    ensures { result ≡ bus (given program.now []) (tables exec.now ext.now) }
{
    if next_pull(ext, pulled) == ext.len() / 120 {
        return Ok(());
    }
    if !pairs_up(program, exec, ext) {
        return count_bus(program, exec, ext);
    }
    Ok(())
}
