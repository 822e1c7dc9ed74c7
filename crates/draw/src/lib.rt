// The 64-bit generator of document 01, and a draw of 32 bits.
#![tactic(auto)]

ghost use Rattle.std.specs.Prelude.{◌≡◌, ◌*◌, ◌%◌, ◌^◌};
ghost use Rattle.draw.specs.Draw.{draw_of};

#[derive(Clone, Copy)]
pub struct Generator {
    pub state: u64,
}

#[derive(Clone, Copy)]
pub struct Drawn {
    pub number: u32,
    pub next: Generator,
}

// The lower 64 bits of a product.
pub fn wrapping_product(x: u64, y: u64) -> u64
    ensures { result ≡ x * y % 2 ^ 64 }
{
    x.wrapping_mul(y)
}

impl Generator {
    // The seed is the first state, all 64 bits of it.
    pub fn new(seed: u64) -> Self
        ensures { result ≡ record { state = seed } }
    {
        Generator { state: seed }
    }

    // A draw: the number beside the advanced generator.
    // stays: by self, and a struct returned, is the form that the project's rules name for it.
    pub fn draw(self) -> Drawn
        ensures { result ≡ draw_of self }
    {
        let product = wrapping_product(6364136223846793005, self.state);
        let next = product.wrapping_add(1442695040888963407);
        Drawn {
            number: (next / 4294967296) as u32,
            next: Generator { state: next },
        }
    }

    // The same where the generator stands: it is advanced, and the number returned.
    pub fn next_number(&mut self) -> u32
        ensures { (result ≡ (draw_of self.old).number) × (self.new ≡ (draw_of self.old).next) }
    {
        let drawn = self.draw();
        *self = drawn.next;
        drawn.number
    }
}
