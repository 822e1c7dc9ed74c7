// A recipe made and tabled, as both programs do: document 01, "Draws, recipe, label".
#![tactic(auto)]

ghost use Rattle.std.specs.Prelude.{◌≡◌, length};
ghost use Rattle.maker_spec.specs.Bytes.{program_of, memory_of};
ghost use Rattle.program_build.specs.Inner.{Spaces};
ghost use Rattle.program_build.specs.Recipes.{exec_tabled, ext_tabled};

use label::Recipe;
use maker::make;
use tabler::table;

// How long the parts of a recipe with m 10 are at most: 125 instructions, 1,024 cells, and two tables of 256 rows.
pub const PROGRAM: usize = 6000;

pub const MEMORY: usize = 4096;

pub const EXEC: usize = 8192;

pub const EXT: usize = 30720;

// From pc 0 and fp 0. Maker and tabler accept every recipe that is handed on, so neither's answer is asked for.
pub fn build(recipe: Recipe, program: &mut [u8], memory: &mut [u8], exec: &mut [u8], ext: &mut [u8])
    requires { Spaces recipe (length program.old) (length memory.old) (length exec.old) (length ext.old) }
    ensures { (program.new ≡ program_of recipe)
        × (memory.new ≡ memory_of recipe)
        × (exec.new ≡ exec_tabled recipe)
        × (ext.new ≡ ext_tabled recipe) }
{
    let _ = make(recipe, program, memory);
    let _ = table(program, memory, 0, 0, exec, ext);
}
