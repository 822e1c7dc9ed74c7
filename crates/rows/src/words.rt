// Words written one after the other.
ghost use Rattle.std.specs.Prelude.{◌≡◌, ◌+◌, ◌*◌, ◌≤◌, length};
ghost use Rattle.rows.specs.Rows.{with_words, put_row};

use word::put_word;

// Words that fit, from a byte on.
pub(crate) fn put_from(s: &mut [u8], at: usize, words: &[u32])
    requires { at + 4 * length words.now ≤ length s.old }
    ensures { s.new ≡ with_words s.old at words.now }
{
    for (k, word) in words.iter().enumerate() {
        put_word(s, at + 4 * k, *word);
    }
}

// The bytes of a row's words; a buffer of another length is left as it is.
pub fn put_words(s: &mut [u8], words: &[u32])
    ensures { s.new ≡ put_row s.old (4 * length words.now) words.now }
{
    if s.len() != 4 * words.len() {
        return;
    }
    put_from(s, 0, words);
}
