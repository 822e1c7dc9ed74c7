// The maker's draws: 32 cells, then three numbers for each instruction.
#![tactic(auto)]

ghost use Rattle.std.specs.Prelude.{◌≡◌, ◌/◌, ◌%◌, ◌^◌};
ghost use Rattle.maker_draws.specs.Drawn.{after_cell, begun_of, drawn_number, three_of};

use draw::Generator;

// p
const P: u32 = 2130706433;

// 2·p: numbers from here on would give the lowest values a third time
const KEPT_BELOW: u32 = 4261412866;

// An instruction's kind, as it is drawn.
#[derive(Clone, Copy, PartialEq, Eq)]
pub enum KindDrawn {
    Add,
    Mul,
    Deref,
    Jump,
    Extension,
}

// An instruction's kind, a and c.
#[derive(Clone, Copy)]
pub struct Three {
    pub kind: KindDrawn,
    pub a: u32,
    pub c: u32,
}

// The number for a cell; after eight that are thrown away the ninth is taken whatever it is.
fn draw_cell(version: u32, generator: &mut Generator) -> u32
    ensures { (result ≡ after_cell version generator.old.state / 2 ^ 32)
        × (generator.new.state ≡ after_cell version generator.old.state) }
{
    for _thrown in 0..8u32 {
        let number = generator.next_number();
        if version == 1 || number < KEPT_BELOW {
            return number;
        }
    }
    generator.next_number()
}

// Cells 0 to 31.
pub fn begin(version: u32, generator: &mut Generator) -> [u32; 32]
    ensures { (result ≡ (begun_of version generator.old.state).cells)
        × (generator.new ≡ (begun_of version generator.old.state).next) }
{
    let mut cells = [0; 32];
    for k in 0..32 {
        cells[k] = draw_cell(version, &mut *generator) % P;
    }
    cells
}

fn kind_of(number: u32) -> KindDrawn
    ensures { drawn_number result ≡ number % 5 }
{
    match number % 5 {
        0 => KindDrawn::Add,
        1 => KindDrawn::Mul,
        2 => KindDrawn::Deref,
        3 => KindDrawn::Jump,
        _ => KindDrawn::Extension,
    }
}

pub fn draw_three(generator: &mut Generator) -> Three
    ensures { (drawn_number result.kind ≡ (three_of generator.old).kind)
        × (result.a ≡ (three_of generator.old).a)
        × (result.c ≡ (three_of generator.old).c)
        × (generator.new ≡ (three_of generator.old).next) }
{
    let kind = kind_of(generator.next_number());
    let a = generator.next_number() % 32;
    let c = generator.next_number() % 32;
    Three { kind, a, c }
}
