// A recipe's own tables, made and judged.
ghost use Rattle.std.specs.Prelude.{true, ◌≡◌};
ghost use Rattle.label.specs.Label.{ranged};
ghost use Rattle.replay.specs.Replay.{judged_of, replay_of};

use answer::{Answer, Refusal};
use judge::judge;
use label::Recipe;
use program_build::{EXEC, EXT, MEMORY, PROGRAM, build};

// The judge's answer to the recipe's own tables, in buffers of its own.
fn judged(recipe: Recipe) -> Answer
    requires { (ranged recipe ≡ true) × (recipe.m ≡ 10) }
    ensures { result ≡ judged_of recipe }
{
    let mut program = [0; PROGRAM];
    let mut memory = [0; MEMORY];
    let mut exec = [0; EXEC];
    let mut ext = [0; EXT];
    let program = &mut program[..48 * (recipe.n as usize + 1)];
    build(recipe, program, &mut memory, &mut exec, &mut ext);
    judge(program, &memory, 0, 0, &exec, &ext)
}

// The program takes m = 10 only.
pub(crate) fn answer_to(recipe: Recipe) -> Answer
    requires { ranged recipe ≡ true }
    ensures { result ≡ replay_of recipe }
{
    if recipe.m != 10 {
        return Err(Refusal::Size { part: 2, place: 0 });
    }
    judged(recipe)
}
