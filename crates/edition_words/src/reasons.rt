// Whether 14 words are translatable: no reason of EDITION's holds.
ghost use Rattle.std.specs.List.{list_all};
ghost use Rattle.std.specs.Prelude.{◌≡◌, nat_le};
ghost use Rattle.edition_spec.specs.Translatable.{flags_known, one_opcode, deref_fixed, no_precompile, translatable};

use edition_machine::Encoded;

fn are_flags(words: &[u32]) -> bool
    ensures { result ≡ list_all (λ x. nat_le x 1) words.now }
{
    words.iter().all(|word| *word <= 1)
}

fn flags_known(e: Encoded) -> bool
    ensures { result ≡ flags_known e }
{
    are_flags(&[e.fa, e.fb, e.fc, e.add, e.mul, e.deref, e.jump])
}

// Words of any size are summed, so in 64 bits.
fn one_opcode(e: Encoded) -> bool
    ensures { result ≡ one_opcode e }
{
    u64::from(e.add) + u64::from(e.mul) + u64::from(e.deref) + u64::from(e.jump) == 1
}

fn deref_fixed(e: Encoded) -> bool
    ensures { result ≡ deref_fixed e }
{
    (e.fa == 0) & (e.fc == 1) & (e.aux1 <= 1) & ((e.aux1 == 1) | (e.fb == 1))
}

fn no_precompile(e: Encoded) -> bool
    ensures { result ≡ no_precompile e }
{
    (e.precompile == 0) & (e.index == 0)
}

pub fn is_translatable(e: Encoded) -> bool
    ensures { result ≡ translatable e }
{
    let fixed = if e.deref == 1 {
        deref_fixed(e)
    } else {
        e.aux1 == 0
    };
    no_precompile(e) & flags_known(e) & one_opcode(e) & fixed & (e.aux2 == 0)
}
