// All that the program writes.
ghost use Rattle.program_build.specs.Output.{Outputs};
ghost use Rattle.table.specs.Table.{table_output};

use crate::made::tables;
use label::read_label;

// The four parts of a label with m 10; nothing for a bad label or another m.
pub fn table_label(text: &[u8], out: &mut [u8; 49008]) -> usize
    ensures { Outputs table_output text.now out.old out.new result }
{
    let Ok(recipe) = read_label(text) else {
        return 0;
    };
    if recipe.m != 10 {
        return 0;
    }
    tables(recipe, out)
}
