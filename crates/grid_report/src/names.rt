// A counter's name, of four texts.
ghost use Rattle.std.specs.Prelude.{[], ◌∷◌, ◌++◌, ◌≡◌, ◌<◌};
ghost use Rattle.lines.specs.Putting.{Room, Put};
ghost use Rattle.grid_spec.specs.Report.{kind_text, mode_text, name_of};

use lines::Out;

fn kind_text(kind: usize) -> &'static [u8]
    requires { kind < 5 }
    ensures { result.now ≡ kind_text kind }
{
    match kind {
        0 => b"add",
        1 => b"mul",
        2 => b"deref",
        3 => b"jump",
        _ => b"ext",
    }
}

fn mode_text(mode: usize) -> &'static [u8]
    requires { mode < 3 }
    ensures { result.now ≡ mode_text mode }
{
    match mode {
        0 => b"imm",
        1 => b"cell",
        _ => b"fp",
    }
}

// A text and the byte that ends it.
fn put_ended(text: &[u8], end: u8, out: &mut Out)
    requires { Room out.old (text.now ++ (end ∷ [])) }
    ensures { Put out.old (text.now ++ (end ∷ [])) out.new }
{
    out.put(text);
    out.put(&[end]);
}

// Kind slowest and C fastest.
pub(crate) fn put_name(k: usize, out: &mut Out)
    requires { (k < 135) × Room out.old (name_of k) }
    ensures { Put out.old (name_of k) out.new }
{
    let kind = kind_text(k / 27);
    let a = mode_text(k / 9 % 3);
    let b = mode_text(k / 3 % 3);
    let c = mode_text(k % 3);
    put_ended(kind, b'.', out);
    put_ended(a, b'.', out);
    put_ended(b, b'.', out);
    put_ended(c, b'=', out);
}
