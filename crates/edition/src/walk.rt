// Over all instructions: the first that is not translatable, and each translated.
ghost use Rattle.std.specs.Prelude.{◌≡◌, ◌*◌, ◌<◌, length, MatchOption};
ghost use Rattle.edition_spec.specs.Translated.{old_count, first_untranslatable, translated_program};

use crate::encoded::encoded_inside;
use edition_words::{is_translatable, translation};
use form_bytes::put_instruction;

// The first instruction that is not translatable.
pub(crate) fn first_untranslatable(old: &[u8]) -> Option<usize>
    ensures { MatchOption result (first_untranslatable old.now ≡ old_count old.now) (λ at. (at ≡ first_untranslatable old.now) × (at < old_count old.now)) }
{
    for i in 0..old.len() / 56 {
        if !is_translatable(encoded_inside(old, 56 * i)) {
            return Some(i);
        }
    }
    None
}

// Each instruction through its own 48 bytes.
pub(crate) fn put_all(old: &[u8], program: &mut [u8])
    requires { length program.old ≡ 48 * old_count old.now }
    ensures { program.new ≡ translated_program old.now }
{
    for i in 0..old.len() / 56 {
        let at = 48 * i;
        let end = at + 48;
        put_instruction(
            &mut program[at..end],
            translation(encoded_inside(old, 56 * i)),
        );
    }
}
