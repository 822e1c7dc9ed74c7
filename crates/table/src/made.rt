// A recipe's parts, made and tabled.
ghost use Rattle.std.specs.Prelude.{true, ◌++◌, ◌≡◌, ◌+◌, ◌≤◌, length};
ghost use Rattle.label.specs.Label.{ranged};
ghost use Rattle.program_build.specs.Output.{Fills};
ghost use Rattle.program_build.specs.Recipes.{four_parts};

use label::Recipe;
use lines::Out;
use program_build::{EXEC, EXT, MEMORY, PROGRAM, build};

// The four parts in order, at the front of the buffer.
fn put_parts(program: &[u8], memory: &[u8], exec: &[u8], ext: &[u8], out: &mut [u8]) -> usize
    requires { length program.now + length memory.now + length exec.now + length ext.now ≤ length out.old }
    ensures { Fills (program.now ++ memory.now ++ exec.now ++ ext.now) out.old out.new result }
{
    let mut out = Out { bytes: out, at: 0 };
    out.put(program);
    out.put(memory);
    out.put(exec);
    out.put(ext);
    out.at
}

// The parts that are built in buffers of its own, at the front of the buffer.
pub(crate) fn tables(recipe: Recipe, out: &mut [u8]) -> usize
    requires { (ranged recipe ≡ true) × (recipe.m ≡ 10) × (49008 ≤ length out.old) }
    ensures { Fills (four_parts recipe) out.old out.new result }
{
    let mut program = [0; PROGRAM];
    let mut memory = [0; MEMORY];
    let mut exec = [0; EXEC];
    let mut ext = [0; EXT];
    let program = &mut program[..48 * (recipe.n as usize + 1)];
    build(recipe, program, &mut memory, &mut exec, &mut ext);
    put_parts(program, &memory, &exec, &ext, out)
}
