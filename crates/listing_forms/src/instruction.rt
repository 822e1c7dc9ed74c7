// The 12 words of a form's instruction.
ghost use Rattle.std.specs.Prelude.{◌≡◌};
ghost use Rattle.listing_forms.specs.Forms.{CallFits, immediate_flag, frame_flag, mul_word, jump_word, aux_word, call_word, form_instruction};

use form::{Form, Instruction, Kind, Mode, data_word};

fn immediate_flag(mode: Mode) -> u32
    ensures { result ≡ immediate_flag mode }
{
    u32::from(matches!(mode, Mode::Immediate))
}

fn frame_flag(mode: Mode) -> u32
    ensures { result ≡ frame_flag mode }
{
    u32::from(matches!(mode, Mode::Frame))
}

fn mul_word(kind: Kind) -> u32
    ensures { result ≡ mul_word kind }
{
    u32::from(matches!(kind, Kind::Mul))
}

fn jump_word(kind: Kind) -> u32
    ensures { result ≡ jump_word kind }
{
    u32::from(matches!(kind, Kind::Jump))
}

fn aux_word(kind: Kind) -> u32
    ensures { result ≡ aux_word kind }
{
    match kind {
        Kind::Add => 1,
        Kind::Deref => 2,
        _ => 0,
    }
}

// DATA, which fits 32 bits where the number of elements is at most 2^20.
fn call_word(kind: Kind) -> u32
    requires { CallFits kind }
    ensures { result ≡ call_word kind }
{
    match kind {
        Kind::Extension { op, be, n } => data_word(op, be, n) as u32,
        _ => 0,
    }
}

// The instruction of a form; A and B share one fp flag.
pub fn form_instruction(f: Form) -> Instruction
    requires { CallFits f.kind }
    ensures { result ≡ form_instruction f }
{
    let Form { kind, a, b, c } = f;
    Instruction {
        a: a.word,
        b: b.word,
        c: c.word,
        fa: immediate_flag(a.mode),
        fb: immediate_flag(b.mode),
        fc: immediate_flag(c.mode),
        fpc: frame_flag(c.mode),
        fpab: frame_flag(a.mode),
        mul: mul_word(kind),
        jump: jump_word(kind),
        aux: aux_word(kind),
        data: call_word(kind),
    }
}
