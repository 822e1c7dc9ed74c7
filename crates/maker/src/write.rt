// Both buffers, front to back, each byte once.
ghost use Rattle.std.specs.Prelude.{◌≡◌, ◌++◌, ◌+◌, ◌-◌, ◌*◌, ◌/◌, ◌%◌, ◌≤◌, ◌<◌, length, take, drop};
ghost use Rattle.form.specs.Instruction.{instruction_words};
ghost use Rattle.maker_draws.specs.Drawn.{drawn_number};
ghost use Rattle.maker_spec.specs.Made.{flat, kind_picked, made, slot_cells};
ghost use Rattle.maker.specs.Inner.{cell_in, eight};
ghost use Rattle.maker_spec.specs.Bytes.{word_bytes, instructions_of, cells_of, recipe_draws};

use crate::instructions::{halt_words, made_words};
use crate::slots::slot_words;
use draw::Generator;
use label::Recipe;
use maker_draws::{Three, begin, draw_three};
use word::{clear, put_word};

// Words, into as many bytes.
fn put_words(words: &[u32], s: &mut [u8])
    requires { length s.old ≡ 4 * length words.now }
    ensures { s.new ≡ word_bytes words.now }
{
    for (k, word) in words.iter().enumerate() {
        put_word(&mut *s, 4 * k, *word);
    }
}

// An instruction and its slot, each through its own bytes of its buffer.
fn put_one(cells: &[u32; 32], i: u32, drawn: Three, program: &mut [u8], memory: &mut [u8])
    requires { (i ≤ 124)
        × (drawn.a < 32)
        × (drawn.c < 32)
        × (48 * (i + 1) ≤ length program.old)
        × (128 + 32 * (i + 1) ≤ length memory.old) }
    ensures { (program.new
        ≡ take (48 * i) program.old
        ++ (word_bytes (instruction_words (made flat 0 i (kind_picked (drawn_number drawn.kind) drawn.c) drawn.a drawn.c))
        ++ drop (48 * i + 48 - 48 * i) (drop (48 * i) program.old)))
        × (memory.new
        ≡ take (128 + 32 * i) memory.old
        ++ (word_bytes (eight (slot_cells flat (cell_in cells.now) (kind_picked (drawn_number drawn.kind) drawn.c) drawn.a drawn.c))
        ++ drop (128 + 32 * i + 32 - (128 + 32 * i)) (drop (128 + 32 * i) memory.old))) }
{
    let words = made_words(i, drawn.kind, drawn.a, drawn.c);
    let at = 48 * (i as usize);
    let past = at + 48;
    put_words(&words, &mut program[at..past]);
    let filled = slot_words(cells, drawn.kind, drawn.a, drawn.c);
    let slot = 128 + 32 * (i as usize);
    let behind = slot + 32;
    put_words(&filled, &mut memory[slot..behind]);
}

// The drawn cells, then each instruction with its slot.
fn put_all(recipe: Recipe, program: &mut [u8], memory: &mut [u8])
    requires { (recipe.n ≤ 124) × (48 * recipe.n ≤ length program.old) × (128 + 32 * recipe.n ≤ length memory.old) }
    ensures { (program.new ≡ instructions_of flat (recipe_draws recipe) recipe.n recipe.n ++ drop (48 * recipe.n) program.old)
        × (memory.new ≡ cells_of flat (recipe_draws recipe) recipe.n (32 + 8 * recipe.n) ++ drop (128 + 32 * recipe.n) memory.old) }
{
    let mut generator = Generator::new(recipe.seed);
    let cells = begin(recipe.version, &mut generator);
    put_words(&cells, &mut memory[..128]);
    for i in 0..recipe.n {
        let drawn = draw_three(&mut generator);
        put_one(&cells, i, drawn, &mut *program, &mut *memory);
    }
}

// All of both buffers; past the slots the memory is 0.
pub(crate) fn fill(recipe: Recipe, program: &mut [u8], memory: &mut [u8])
    requires { (recipe.n ≤ 124)
        × (length program.old ≡ 48 * (recipe.n + 1))
        × (128 + 32 * recipe.n ≤ length memory.old)
        × (length memory.old % 4 ≡ 0) }
    ensures { (program.new ≡ instructions_of flat (recipe_draws recipe) recipe.n (recipe.n + 1))
        × (memory.new ≡ cells_of flat (recipe_draws recipe) recipe.n (length memory.old / 4)) }
{
    put_all(recipe, &mut *program, &mut *memory);
    let last = 48 * (recipe.n as usize);
    let words = halt_words(recipe.n);
    put_words(&words, &mut program[last..]);
    let past = 128 + 32 * (recipe.n as usize);
    clear(&mut memory[past..]);
}
