// Extension elements: five words by value, lowest power first.
#![tactic(auto)]

mod fold;

ghost use Rattle.std.specs.Prelude.{◌≡◌, ℕ, ◌<◌};
ghost use Rattle.word.specs.Element.{◌⟨◌⟩, ◌+ₑ◌, ◌-ₑ◌, ◌·ₑ◌, peqₑ};

pub use fold::product;

// Place by place: what a function gives of the two words there.
// stays: written out (c): of `array::from_fn` the proof did not close: its promise names no capture.
fn by_place<F: Fn(u32, u32) -> u32>(a: [u32; 5], b: [u32; 5], of: F) -> [u32; 5]
    requires { F.IsAlwaysCallable of }
    ensures { (k : ℕ) → k < 5 → F.post of (a ⟨ k ⟩) (b ⟨ k ⟩) (result ⟨ k ⟩) }
{
    [
        of(a[0], b[0]),
        of(a[1], b[1]),
        of(a[2], b[2]),
        of(a[3], b[3]),
        of(a[4], b[4]),
    ]
}

pub fn sum(a: [u32; 5], b: [u32; 5]) -> [u32; 5]
    ensures { result ≡ a +ₑ b }
{
    by_place(a, b, word::add)
}

pub fn difference(a: [u32; 5], b: [u32; 5]) -> [u32; 5]
    ensures { result ≡ a -ₑ b }
{
    by_place(a, b, word::sub)
}

// A word times an element. Most are flags, and take no product.
pub fn scale(x: u32, a: [u32; 5]) -> [u32; 5]
    ensures { result ≡ x ·ₑ a }
{
    match x {
        0 => [0; 5],
        1 => sum(a, [0; 5]),
        _ => by_place([x; 5], a, word::mul),
    }
}

// peq: a·b + (1 - a)(1 - b) is 2·a·b + 1 - (a + b), by one product.
pub fn peq(a: [u32; 5], b: [u32; 5]) -> [u32; 5]
    ensures { result ≡ peqₑ a b }
{
    let one: [u32; 5] = [1, 0, 0, 0, 0];
    let c = product(a, b);
    difference(sum(sum(c, c), one), sum(a, b))
}
