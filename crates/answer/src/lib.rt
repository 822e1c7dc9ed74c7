// The answers of document 01, "Verdicts", and of document 02's requests: accepted or an enum's refusal, and the six
// numbers of each.
#![tactic(auto)]

ghost use Rattle.std.specs.Prelude.{◌≡◌};
ghost use Rattle.answer.specs.Verdicts.{six, numbers_of, refusal_numbers, accepted};

// A case for each verdict but ACCEPTED, in the paper's order, with what the paper names in it.
#[derive(Clone, Copy, PartialEq, Eq)]
pub enum Refusal {
    Size {
        part: u32,
        place: u32,
    },
    Word {
        part: u32,
        place: u32,
    },
    Instruction {
        place: u32,
    },
    Start,
    Exec {
        row: u32,
        rule: u32,
        expected: u32,
        found: u32,
    },
    Extension {
        row: u32,
        rule: u32,
        expected: u32,
        found: u32,
    },
    Bus {
        part: u32,
        row: u32,
    },
    Label {
        place: u32,
    },
    Stuck {
        row: u32,
        rule: u32,
    },
    Room {
        row: u32,
    },
    Open {
        row: u32,
    },
    Buffer,
    Grid,
    Edition {
        place: u32,
    },
    Listing {
        place: u32,
    },
    Short {
        place: u32,
    },
    Host,
    ListShort {
        place: u32,
    },
}

// ACCEPTED, or the refusal.
pub type Answer = Result<(), Refusal>;

// An answer as the paper counts it. What a verdict does not name is 0.
#[derive(Clone, Copy)]
pub struct Numbers {
    pub verdict: u32,
    pub part: u32,
    pub place: u32,
    pub rule: u32,
    pub expected: u32,
    pub found: u32,
}

fn six(verdict: u32, part: u32, place: u32, rule: u32, expected: u32, found: u32) -> Numbers
    ensures { result ≡ six verdict part place rule expected found }
{
    Numbers {
        verdict,
        part,
        place,
        rule,
        expected,
        found,
    }
}

// Of most verdicts nothing is expected and nothing found.
fn four(verdict: u32, part: u32, place: u32, rule: u32) -> Numbers
    ensures { result ≡ six verdict part place rule 0 0 }
{
    six(verdict, part, place, rule, 0, 0)
}

fn refusal_numbers(refusal: Refusal) -> Numbers
    ensures { result ≡ refusal_numbers refusal }
{
    match refusal {
        Refusal::Size { part, place } => four(1, part, place, 0),
        Refusal::Word { part, place } => four(2, part, place, 0),
        Refusal::Instruction { place } => four(3, 1, place, 0),
        Refusal::Start => four(4, 0, 0, 0),
        Refusal::Exec {
            row,
            rule,
            expected,
            found,
        } => six(5, 3, row, rule, expected, found),
        Refusal::Extension {
            row,
            rule,
            expected,
            found,
        } => six(6, 4, row, rule, expected, found),
        Refusal::Bus { part, row } => four(7, part, row, 0),
        Refusal::Label { place } => four(8, 0, place, 0),
        Refusal::Stuck { row, rule } => four(9, 0, row, rule),
        Refusal::Room { row } => four(10, 0, row, 0),
        Refusal::Open { row } => four(11, 0, row, 0),
        Refusal::Buffer => four(13, 0, 0, 0),
        Refusal::Grid => four(14, 0, 0, 0),
        Refusal::Edition { place } => four(15, 0, place, 0),
        Refusal::Listing { place } => four(16, 0, place, 0),
        Refusal::Short { place } => four(17, 0, place, 0),
        Refusal::Host => four(18, 0, 0, 0),
        Refusal::ListShort { place } => four(19, 0, place, 0),
    }
}

// The six numbers of an answer.
pub fn six_numbers(a: Answer) -> Numbers
    ensures { result ≡ numbers_of a }
{
    match a {
        Ok(()) => four(0, 0, 0, 0),
        Err(refusal) => refusal_numbers(refusal),
    }
}

pub fn accepted(a: Answer) -> bool
    ensures { result ≡ accepted a }
{
    let numbers = six_numbers(a);
    numbers.verdict == 0
}
