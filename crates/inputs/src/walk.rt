// One walk over a part: the first word at or above p, the first malformed instruction.
ghost use Rattle.std.specs.Prelude.{◌≡◌, true, ◌&&◌, [], ◌+◌, ◌-◌, ◌*◌, ◌/◌, ◌%◌, ◌≤◌, length};
ghost use Rattle.judge_spec.specs.First.{first};
ghost use Rattle.judge_spec.specs.Judged.{is_word, first_word, first_malformed};
ghost use Rattle.rules.specs.Sizes.{given};
ghost use Rattle.inputs.specs.Words.{eight_words, AllWords, program_passes};

use crate::Walked;
use form::{instruction_inside, well_formed};
use word::word_inside;

// Whether a word that is there is one, below p.
fn is_word(s: &[u8], k: usize) -> bool
    requires { 4 * k + 4 ≤ length s.now }
    ensures { result ≡ is_word s.now k }
{
    word_inside(s, 4 * k) < 2130706433
}

// The same of eight from one on, without a branch.
pub fn eight_words(s: &[u8], k: usize) -> bool
    requires { 4 * k + 32 ≤ length s.now }
    ensures { result ≡ eight_words s.now k }
{
    let mut all = true;
    for j in k..k + 8 {
        all &= is_word(s, j);
    }
    all
}

// The first eight of which not all are words, or fewer than eight at the end: the search goes on from there.
fn first_eight(bytes: &[u8]) -> usize
    ensures { (result ≤ length bytes.now / 4)
        × (first_word bytes.now ≡ first (is_word bytes.now) result (length bytes.now / 4 - result)) }
{
    let n = bytes.len() / 4;
    for k in 0..n / 8 {
        if !eight_words(bytes, 8 * k) {
            return 8 * k;
        }
    }
    n / 8 * 8
}

// The first word at or above p; their number where there is none.
// stays: the promise is the equation with `first_word` (judge_spec/specs/Judged.antt), by which WORD's place is told
pub fn first_word(bytes: &[u8]) -> usize
    ensures { result ≡ first_word bytes.now }
{
    let n = bytes.len() / 4;
    let start = first_eight(bytes);
    for i in start..n {
        if !is_word(bytes, i) {
            return i;
        }
    }
    n
}

// The same, where a walk before may have seen that there is none.
pub fn first_word_unless(bytes: &[u8], seen: bool) -> usize
    requires { seen ≡ true → AllWords bytes.now }
    ensures { result ≡ first_word bytes.now }
{
    if seen {
        return bytes.len() / 4;
    }
    first_word(bytes)
}

// Whether the twelve words of instruction i are below p.
fn twelve_words(program: &[u8], i: usize) -> bool
    requires { 48 * i + 48 ≤ length program.now }
    ensures { result ≡ (eight_words program.now (12 * i) && eight_words program.now (12 * i + 4)) }
{
    eight_words(program, 12 * i) & eight_words(program, 12 * i + 4)
}

// The first malformed instruction, their number where there is none; and, as each is read anyway, whether there is none
// and all words are below p.
pub fn program_walk(program: &[u8]) -> Walked
    requires { length program.now % 48 ≡ 0 }
    ensures { (result.at ≡ first_malformed (given program.now [])) × (result.words ≡ program_passes program.now) }
{
    let n = program.len() / 48;
    let mut words = true;
    for i in 0..n {
        if !well_formed(instruction_inside(program, 48 * i)) {
            return Walked {
                at: i,
                words: false,
            };
        }
        words &= twelve_words(program, i);
    }
    Walked { at: n, words }
}
