// The stages after the sizes, each an early answer or the next stage. The program and each table are walked once, and
// what a walk found, a word, a row and its rule, is answered when its stage comes; only then is it asked what stood
// there. A start is 64 bits wide and is compared whole.
ghost use Rattle.std.specs.Prelude.{◌≡◌, ◌&&◌, [], ◌/◌, ◌<◌, ◌^◌, eqb, length};
ghost use Rattle.rows.specs.Rows.{exec_at};
ghost use Rattle.rules.specs.Sizes.{given, tables};
ghost use Rattle.answer.specs.Answers.{Word};
ghost use Rattle.judge_spec.specs.Judged.{words, first_word, first_malformed, exec_refusal, ext_refusal};
ghost use Rattle.inputs.specs.Parts.{Fitting};
ghost use Rattle.judge_lookups.specs.Joined.{joined};
ghost use Rattle.judge.specs.Stages.{from_words, from_instructions};

use crate::bus::bus_answer;
use answer::{Answer, Refusal};
use inputs::{first_word, first_word_unless, program_walk};
use judge_exec::exec_found;
use judge_ext::ext_found;
use judge_lookups::Memory;
use judge_walks::{Failing, exec_walk, ext_walk};
use rows::exec_inside;

// What is judged, once its lengths fit.
#[derive(Drop)]
pub(crate) struct Parts<'p, 'm, 'e, 'x> {
    pub(crate) program: &'p [u8],
    pub(crate) memory: Memory<'m>,
    pub(crate) pc: u64,
    pub(crate) fp: u64,
    pub(crate) exec: &'e [u8],
    pub(crate) ext: &'x [u8],
    ghost fitting: { Fitting (length program.now) (length (joined memory)) (length exec.now) (length ext.now) },
}

fn word_refused(part: u32, place: usize) -> Answer
    requires { place < 2 ^ 32 }
    ensures { result ≡ Word part place }
{
    Err(Refusal::Word {
        part,
        place: place as u32,
    })
}

// The first word at or above p of two buffers, counted as if they were joined; their number where there is none.
fn first_word_joined(memory: Memory) -> usize
    ensures { result ≡ first_word (joined memory.entry) }
{
    let a = first_word(memory.public);
    if a < memory.public.len() / 4 {
        return a;
    }
    a + first_word(memory.rest)
}

impl Parts<'_, '_, '_, '_> {
    // Whether row 0 is the start.
    fn starts(&self) -> bool
        ensures { result ≡ (eqb (exec_at self.now.exec.now 0).pc self.now.pc && eqb (exec_at self.now.exec.now 0).fp self.now.fp) }
    {
        let x = exec_inside(self.exec, 0);
        (u64::from(x.pc) == self.pc) & (u64::from(x.fp) == self.fp)
    }

    // 5 EXEC of a row and its rule.
    fn exec_refused(&self, failing: Failing) -> Answer
        requires { failing.row < length self.now.exec.now / 32 }
        ensures { result ≡ exec_refusal (given [] (joined self.now.memory)) (tables self.now.exec.now []) failing.row failing.rule }
    {
        let stood = exec_found(self.memory, self.exec, failing.row, failing.rule);
        Err(Refusal::Exec {
            row: failing.row as u32,
            rule: failing.rule,
            expected: stood.expected,
            found: stood.found,
        })
    }

    // 6 EXTENSION of a row and its rule.
    // stays: two refusals; they differ in the variant, the table and the lookups, and share two casts.
    fn ext_refused(&self, failing: Failing) -> Answer
        requires { failing.row < length self.now.ext.now / 120 }
        ensures { result ≡ ext_refusal (given [] (joined self.now.memory)) (tables [] self.now.ext.now) failing.row failing.rule }
    {
        let stood = ext_found(self.memory, self.ext, failing.row, failing.rule);
        Err(Refusal::Extension {
            row: failing.row as u32,
            rule: failing.rule,
            expected: stood.expected,
            found: stood.found,
        })
    }

    // 2 WORD of both tables, 3 INSTRUCTION, 4 START, 5 EXEC, 6 EXTENSION and 7 BUS.
    fn tables_answer(&self, malformed: usize) -> Answer
        requires { malformed ≡ first_malformed (given self.now.program.now []) }
        ensures { result ≡ words 3 self.now.exec.now (words 4 self.now.ext.now (from_instructions self.now.program.now (joined self.now.memory) self.now.pc self.now.fp self.now.exec.now self.now.ext.now)) }
    {
        let ran = exec_walk(self.program, self.memory, self.exec, self.ext);
        let c = first_word_unless(self.exec, ran.words);
        if c < self.exec.len() / 4 {
            return word_refused(3, c);
        }
        let extended = ext_walk(self.memory, self.ext);
        let d = first_word_unless(self.ext, extended.words);
        if d < self.ext.len() / 4 {
            return word_refused(4, d);
        }
        if malformed < self.program.len() / 48 {
            return Err(Refusal::Instruction {
                place: malformed as u32,
            });
        }
        if !self.starts() {
            return Err(Refusal::Start);
        }
        if let Some(failing) = ran.failing {
            return self.exec_refused(failing);
        }
        if let Some(failing) = extended.failing {
            return self.ext_refused(failing);
        }
        bus_answer(self.program, self.exec, self.ext, ran.pulled)
    }

    // 2 WORD of the program and the memory, then the tables.
    pub(crate) fn words_answer(&self) -> Answer
        ensures { result ≡ from_words self.now.program.now (joined self.now.memory) self.now.pc self.now.fp self.now.exec.now self.now.ext.now }
    {
        let listed = program_walk(self.program);
        let a = first_word_unless(self.program, listed.words);
        if a < self.program.len() / 4 {
            return word_refused(1, a);
        }
        let b = first_word_joined(self.memory);
        if b < self.memory.public.len() / 4 + self.memory.rest.len() / 4 {
            return word_refused(2, b);
        }
        self.tables_answer(listed.at)
    }
}
