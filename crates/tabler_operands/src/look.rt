// What a step's operands read: each is looked at once, for the step and for its row. No program and no pc is asked for.
ghost use Rattle.std.specs.Prelude.{◌≡◌, ◌/◌, length};
ghost use Rattle.rules.specs.Sizes.{word_of};
ghost use Rattle.tabler_operands.specs.Looked.{looked_of, looked_b, operands_of};

use crate::{Looked, Operands};
use form::{Form, Kind, Mode, Operand};
use tabler_cells::cell;
use word::add;

// A cell read is legal where the cell exists; an operand that reads none has column 0.
fn look(memory: &[u8], fp: u32, o: Operand) -> Looked
    ensures { result ≡ looked_of (word_of memory.now) (length memory.now / 4) fp o }
{
    match o.mode {
        Mode::Immediate => Looked {
            legal: true,
            addr: 0,
            cell: cell(memory, 0),
            value: o.word,
        },
        Mode::Cell => {
            let k = add(fp, o.word);
            let x = cell(memory, k as usize);
            Looked {
                legal: (k as usize) < memory.len() / 4,
                addr: k,
                cell: x,
                value: x,
            }
        }
        Mode::Frame => Looked {
            legal: true,
            addr: 0,
            cell: cell(memory, 0),
            value: add(fp, o.word),
        },
    }
}

// Operand B, where A's value is a: DEREF's column is its target, the cell at a + β.
fn look_b(memory: &[u8], fp: u32, f: Form, a: u32) -> Looked
    ensures { result ≡ looked_b (word_of memory.now) (length memory.now / 4) fp a f.b f.kind }
{
    let x = look(memory, fp, f.b);
    match f.kind {
        Kind::Deref => {
            let k = add(a, f.b.word);
            Looked {
                legal: x.legal & ((k as usize) < memory.len() / 4),
                addr: k,
                cell: cell(memory, k as usize),
                ..x
            }
        }
        _ => x,
    }
}

// All three operands, on an untaken jump too.
pub fn look_all(memory: &[u8], fp: u32, f: Form) -> Operands
    ensures { result ≡ operands_of (word_of memory.now) (length memory.now / 4) fp f }
{
    let a = look(memory, fp, f.a);
    let b = look_b(memory, fp, f, a.value);
    let c = look(memory, fp, f.c);
    Operands { a, b, c }
}
