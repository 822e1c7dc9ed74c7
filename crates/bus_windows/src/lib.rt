// The bus where pushes and pulls stand in different orders, or don't match: counted in windows, up to the first sender
// that is unequal.
#![tactic(auto)]

mod count;
mod fill;
mod sender;
mod totals;
mod window;

ghost use Rattle.std.specs.Prelude.{◌≡◌, []};
ghost use Rattle.judge_spec.specs.Judged.{bus};
ghost use Rattle.rules.specs.Sizes.{given, tables};
ghost use Rattle.bus_tuples.specs.Ready.{Listed, Flagged, Short};

use answer::{Answer, Refusal};
use bus_tuples::ListedRows;
use sender::Senders;

// The bus by counting: the first row that is unequal, in the table it stands in.
// stays: docs/EXCEPTIONS.md names it and `pairs_up`, so what they ask stands in clauses, and each makes its struct.
pub fn count_bus<'a>(program: &'a [u8], exec: &'a [u8], ext: &'a [u8]) -> Answer
    requires listed { Listed program.now exec.now }
    requires flagged { Flagged ext.now }
    requires short { Short exec.now × Short ext.now }
    ensures { result ≡ bus (given program.now []) (tables exec.now ext.now) }
{
    let senders = Senders {
        rows: ListedRows { program, exec },
        ext,
    };
    let h = exec.len() / 32;
    if let Some(r) = senders.first_unequal(0, h) {
        return Err(Refusal::Bus {
            part: 3,
            row: r as u32,
        });
    }
    // Where no push is unequal and as much is pulled as is pushed, no pull is.
    if senders.push_total() == senders.pull_total() {
        return Ok(());
    }
    let n = h + ext.len() / 120;
    if let Some(j) = senders.first_unequal(h, n) {
        return Err(Refusal::Bus {
            part: 4,
            row: (j - h) as u32,
        });
    }
    Ok(())
}
