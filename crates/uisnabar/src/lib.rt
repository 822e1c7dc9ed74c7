// The C library: the judge on one buffer and on two, form counts, programs from draft 0.5.0, listings, streams, range
// checks and the label reader, as include/uisnabar.h declares them.
#![tactic(auto)]

mod editions;
mod forms;
mod listings;
mod ranges;
mod streams;
mod two_buffers;

ghost use Rattle.std.specs.Prelude.{◌≡◌, length};
ghost use Rattle.rows.specs.Rows.{put_row};
ghost use Rattle.reply.specs.Reply.{returned, replied};
ghost use Rattle.uisnabar.specs.Calls.{answer_to, recipe_words, LabelCall};

use answer::Refusal;
pub use editions::uisnabar_translate;
pub use forms::{uisnabar_count, uisnabar_report};
use label::{Recipe, read_label};
pub use listings::{uisnabar_list, uisnabar_read_listing};
pub use ranges::uisnabar_ranges;
use reply::{misfit, reply};
use rows::put_words;
pub use streams::{uisnabar_host, uisnabar_jump};
pub use two_buffers::uisnabar_judge_split;

// The judge. ANSWER comes first, so nothing is judged for a caller who cannot be told.
pub fn uisnabar_judge(
    program: &[u8],
    memory: &[u8],
    pc: u64,
    fp: u64,
    exec: &[u8],
    ext: &[u8],
    answer: &mut [u8],
) -> u32
    ensures value { result ≡ returned (answer_to program.now memory.now pc fp exec.now ext.now) answer.old }
    ensures answer_after { answer.new ≡ replied (answer_to program.now memory.now pc fp exec.now ext.now) answer.old }
{
    if answer.len() != 24 {
        return reply(answer, Err(Refusal::Buffer));
    }
    let a = judge::judge(program, memory, pc, fp, exec, ext);
    reply(answer, a)
}

// The recipe's words into 20 bytes, all 64 bits of its seed and its version last.
fn recipe_bytes(recipe: &mut [u8], r: Recipe)
    requires { length recipe.old ≡ 20 }
    ensures { recipe.new ≡ put_row recipe.old 20 (recipe_words r) }
{
    let low = (r.seed % 4294967296) as u32;
    let high = (r.seed / 4294967296) as u32;
    put_words(recipe, &[low, high, r.m, r.n, r.version]);
}

// The label reader. ANSWER is the answer before any other, for either buffer.
pub fn uisnabar_label(text: &[u8], answer: &mut [u8], recipe: &mut [u8]) -> u32
    ensures { LabelCall text.now answer.old recipe.old answer.new recipe.new result }
{
    if answer.len() != 24 {
        return reply(answer, Err(Refusal::Buffer));
    }
    if recipe.len() != 20 {
        return misfit();
    }
    match read_label(text) {
        Ok(r) => {
            recipe_bytes(recipe, r);
            reply(answer, Ok(()))
        }
        Err(refusal) => reply(answer, Err(refusal)),
    }
}
