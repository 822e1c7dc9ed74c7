// The product of two elements: five sums, over the words of a by those of b, b·X, b·X^2, b·X^3 and b·X^4.
ghost use Rattle.std.specs.Prelude.{◌≡◌, ℕ, ◌+◌, ◌%◌, ◌≤◌};
ghost use Rattle.word.specs.Word.{p, IsWord, ◌+ₚ◌, ◌*ₚ◌};
ghost use Rattle.word.specs.Element.{IsElement, ◌+ₑ◌, ◌·ₑ◌, ◌*ₑ◌};
ghost use Rattle.element.specs.Sums.{times_x, reduced_of, Products};

use crate::sum;

// By X^5 = 1 - X^2 the top word is folded back into two.
fn times_x(b: &mut [u32; 5])
    ensures { b.new ≡ times_x b.old }
{
    let top = b[4];
    *b = [top, b[0], word::sub(b[1], top), b[2], b[3]];
}

// A product more. One of two words is at most (p - 1)^2, and four fit 64 bits: s holds three at most.
fn more(s: u64, x: u32, y: u32) -> u64
    requires { IsWord x × IsWord y × (s ≤ 13619729698098511872) }
    ensures { (result % p ≡ s % p +ₚ x *ₚ y) × (result ≤ s + 4539909899366170624) }
{
    s + u64::from(x) * u64::from(y)
}

// The sum with room for a product more: 2p^2 less, where it is that much.
fn with_room(s: u64) -> u64
    ensures { (result % p ≡ s % p) × (result ≤ 9366924266454384637) }
{
    if s < 9079819807255166978 {
        s
    } else {
        s - 9079819807255166978
    }
}

// The sum and a last product, reduced.
fn last(s: u64, x: u32, y: u32) -> u32
    requires { IsWord x × IsWord y }
    ensures { result ≡ s % p +ₚ x *ₚ y }
{
    word::reduced(more(with_room(s), x, y))
}

// The sums, for a word each, and x times b. They are reduced at the end.
// stays: written out (d): a helper for it would ask, for each place, what `more` requires there, and so be longer.
fn add_times(s: &mut [u64; 5], x: u32, b: [u32; 5])
    requires { IsWord x × IsElement b × Products 3 s.old }
    ensures { (reduced_of s.new ≡ reduced_of s.old +ₑ x ·ₑ b) × ((k : ℕ) → Products k s.old → Products (k + 1) s.new) }
{
    *s = [
        more(s[0], x, b[0]),
        more(s[1], x, b[1]),
        more(s[2], x, b[2]),
        more(s[3], x, b[3]),
        more(s[4], x, b[4]),
    ];
}

// The same at the end, reduced.
fn ended(s: [u64; 5], x: u32, b: [u32; 5]) -> [u32; 5]
    requires { IsWord x × IsElement b }
    ensures { result ≡ reduced_of s +ₑ x ·ₑ b }
{
    [
        last(s[0], x, b[0]),
        last(s[1], x, b[1]),
        last(s[2], x, b[2]),
        last(s[3], x, b[3]),
        last(s[4], x, b[4]),
    ]
}

// Any numbers are taken modulo p first.
pub fn product(a: [u32; 5], b: [u32; 5]) -> [u32; 5]
    ensures { result ≡ a *ₑ b }
{
    let left = sum(a, [0; 5]);
    let mut right = sum(b, [0; 5]);
    let mut sums = [0; 5];
    for k in 0..4 {
        add_times(&mut sums, left[k], right);
        times_x(&mut right);
    }
    ended(sums, left[4], right)
}
