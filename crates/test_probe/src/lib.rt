// What the tests call beyond the C library: tabler, maker and label writer. Customers never link it.
#![tactic(auto)]

ghost use Rattle.std.specs.Prelude.{◌≡◌, length};
ghost use Rattle.label.specs.Reader.{recipe_of};
ghost use Rattle.label.specs.Writing.{written, buffered};
ghost use Rattle.maker_spec.specs.Bytes.{make_of, program_after, memory_after};
ghost use Rattle.reply.specs.Reply.{returned, replied};
ghost use Rattle.tabler_spec.specs.Tabled.{table_of, exec_after, ext_after};

use label::{Recipe, write_label};
use reply::reply;

fn recipe(version: u32, seed: u64, m: u32, n: u32) -> Recipe
    ensures { result ≡ recipe_of version seed m n }
{
    Recipe {
        version,
        seed,
        m,
        n,
    }
}

// The tabler; its answer is told where the answer's buffer is 24 bytes.
#[unsafe(no_mangle)]
pub extern "C" fn probe_table(
    program: &[u8],
    memory: &[u8],
    pc: u64,
    fp: u64,
    exec: &mut [u8],
    ext: &mut [u8],
    answer: &mut [u8],
) -> u32
    ensures value { result ≡ returned (table_of program.now memory.now pc fp (length exec.old) (length ext.old)) answer.old }
    ensures answer_after { answer.new ≡ replied (table_of program.now memory.now pc fp (length exec.old) (length ext.old)) answer.old }
    ensures exec_after { exec.new ≡ exec_after program.now memory.now pc fp exec.old ext.old }
    ensures ext_after { ext.new ≡ ext_after program.now memory.now pc fp exec.old ext.old }
{
    let a = tabler::table(program, memory, pc, fp, exec, ext);
    reply(answer, a)
}

// The maker.
#[unsafe(no_mangle)]
pub extern "C" fn probe_make(
    version: u32,
    seed: u64,
    m: u32,
    n: u32,
    program: &mut [u8],
    memory: &mut [u8],
    answer: &mut [u8],
) -> u32
    ensures value { result ≡ returned (make_of (recipe_of version seed m n) (length program.old) (length memory.old)) answer.old }
    ensures answer_after { answer.new ≡ replied (make_of (recipe_of version seed m n) (length program.old) (length memory.old)) answer.old }
    ensures program_after { program.new ≡ program_after (recipe_of version seed m n) program.old memory.old }
    ensures memory_after { memory.new ≡ memory_after (recipe_of version seed m n) program.old memory.old }
{
    let a = maker::make(recipe(version, seed, m, n), program, memory);
    reply(answer, a)
}

// The label writer: the length written is returned, and the answer told as above.
#[unsafe(no_mangle)]
pub extern "C" fn probe_write(
    version: u32,
    seed: u64,
    m: u32,
    n: u32,
    text: &mut [u8],
    answer: &mut [u8],
) -> u32
    ensures value { result ≡ (written (recipe_of version seed m n) (length text.old)).length }
    ensures answer_after { answer.new ≡ replied (written (recipe_of version seed m n) (length text.old)).answer answer.old }
    ensures text_after { text.new ≡ buffered (recipe_of version seed m n) text.old }
{
    let done = write_label(recipe(version, seed, m, n), text);
    reply(answer, done.and(Ok(())));
    done.unwrap_or(0)
}
