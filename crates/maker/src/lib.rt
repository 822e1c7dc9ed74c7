// A recipe, to a program and a memory: document 01, "Draws, recipe, label".
#![tactic(auto)]

mod elements;
mod instructions;
mod slots;
mod write;

ghost use Rattle.std.specs.Prelude.{◌≡◌, ◌*◌, ◌^◌, ◌≤◌, length};
ghost use Rattle.maker_spec.specs.Bytes.{make_of, program_after, memory_after};

use answer::{Answer, Refusal};
use label::{Recipe, in_range};
use write::fill;

fn memory_size(m: u32) -> usize
    requires { m ≤ 29 }
    ensures { result ≡ 4 * 2 ^ m }
{
    4usize << m
}

// The program and the memory of a recipe; all bytes are filled, and a refusal changes none.
pub fn make(recipe: Recipe, program: &mut [u8], memory: &mut [u8]) -> Answer
    ensures { (result ≡ make_of recipe (length program.old) (length memory.old))
        × (program.new ≡ program_after recipe program.old memory.old)
        × (memory.new ≡ memory_after recipe program.old memory.old) }
{
    if !in_range(recipe) {
        return Err(Refusal::Size { part: 0, place: 0 });
    }
    if program.len() != 48 * (recipe.n as usize + 1) {
        return Err(Refusal::Size { part: 1, place: 0 });
    }
    if memory.len() != memory_size(recipe.m) {
        return Err(Refusal::Size { part: 2, place: 0 });
    }
    fill(recipe, program, memory);
    Ok(())
}
