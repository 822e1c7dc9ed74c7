// Tuples of the bus: what a row pushes or pulls.
ghost use Rattle.std.specs.Prelude.{◌≡◌, ◌+◌, ◌%◌, ◌≤◌, length};
ghost use Rattle.word.specs.Word.{p};
ghost use Rattle.form.specs.Data.{data_of};
ghost use Rattle.rows.specs.Rows.{ext_at};
ghost use Rattle.rules.specs.Bus.{pushed, pulled};
ghost use Rattle.bus_tuples.specs.Sent.{tuple_of, hash_of};

use crate::Sent;
use crate::operand::selected;
use form::Instruction;
use rows::Exec;
use word::{P, word_inside};

// (DATA, νA, νB, νC)
pub fn pushed_tuple(i: Instruction, x: Exec) -> Sent
    ensures { tuple_of result ≡ pushed i x }
{
    let left = selected(i.fa, i.fpab, i.a, x.valueA, x.fp);
    let right = selected(i.fb, i.fpab, i.b, x.valueB, x.fp);
    let out = selected(i.fc, i.fpc, i.c, x.valueC, x.fp);
    Sent {
        aux: i.data,
        left,
        right,
        out,
    }
}

// 2·be + 4·add + 8·mul + 16·peq + 32·len
fn pulled_data(be: u32, add: u32, mul: u32, peq: u32, len: u32) -> u32
    ensures { result ≡ data_of be add mul peq len % p }
{
    let flags = 2 * u64::from(be) + 4 * u64::from(add) + 8 * u64::from(mul) + 16 * u64::from(peq);
    let data = flags + 32 * u64::from(len);
    (data % P) as u32
}

// (2·be + 4·add + 8·mul + 16·peq + 32·len, idxA, idxB, idxR) of the extension row that starts at a byte, of which no
// more is read.
pub fn tuple_at(ext: &[u8], at: usize) -> Sent
    requires { at + 120 ≤ length ext.now }
    ensures { tuple_of result ≡ pulled (ext_at ext.now at) }
{
    let add = word_inside(ext, at + 4);
    let mul = word_inside(ext, at + 8);
    let peq = word_inside(ext, at + 12);
    let len = word_inside(ext, at + 16);
    let be = word_inside(ext, at + 32);
    Sent {
        aux: pulled_data(be, add, mul, peq, len),
        left: word_inside(ext, at + 20),
        right: word_inside(ext, at + 24),
        out: word_inside(ext, at + 28),
    }
}

// Odd numbers below 2^30, so that the sum fits 64 bits.
pub fn hash(t: Sent) -> u64
    ensures { result ≡ hash_of (tuple_of t) }
{
    668265263 * u64::from(t.aux)
        + 1013904223 * u64::from(t.left)
        + 374761393 * u64::from(t.right)
        + 914744491 * u64::from(t.out)
}
