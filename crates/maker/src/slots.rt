// The eight cells of an instruction's slot.
ghost use Rattle.std.specs.Prelude.{◌≡◌, ◌<◌};
ghost use Rattle.maker_draws.specs.Drawn.{drawn_number};
ghost use Rattle.maker_spec.specs.Made.{flat, kind_picked, slot_cells};
ghost use Rattle.maker.specs.Inner.{cell_in, eight};

use crate::elements::result_of;
use maker_draws::KindDrawn;
use word::{add, mul};

pub(crate) fn slot_words(cells: &[u32; 32], kind: KindDrawn, a: u32, c: u32) -> [u32; 8]
    requires { (a < 32) × (c < 32) }
    ensures { result ≡ eight (slot_cells flat (cell_in cells.now) (kind_picked (drawn_number kind) c) a c) }
{
    let x = cells[a as usize];
    let y = cells[c as usize];
    match kind {
        KindDrawn::Add => [add(x, y), 0, 0, 0, 0, 0, 0, 0],
        KindDrawn::Mul => [mul(x, y), 0, 0, 0, 0, 0, 0, 0],
        KindDrawn::Deref => [a, x, 0, 0, 0, 0, 0, 0],
        KindDrawn::Jump => [0; 8],
        KindDrawn::Extension => {
            let e = result_of(cells, a, c);
            [e[0], e[1], e[2], e[3], e[4], 0, 0, 0]
        }
    }
}
