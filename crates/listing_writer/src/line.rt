// A line of a form, put piece by piece: each piece but the last brings the space behind it.
ghost use Rattle.std.specs.Prelude.{◌≡◌};
ghost use Rattle.lines.specs.Line.{numbered};
ghost use Rattle.lines.specs.Putting.{Room, Put};
ghost use Rattle.listing_spec.specs.Listing.{form_line};
ghost use Rattle.listing_writer.specs.Pieces.{op_piece, operand_piece, end_byte, be_text, call_piece};

use form::{Form, Kind, Mode, Op, Operand};
use lines::Out;

// op= and the operation.
fn put_op(kind: Kind, out: &mut Out)
    requires { Room out.old (op_piece kind) }
    ensures { Put out.old (op_piece kind) out.new }
{
    match kind {
        Kind::Add => out.put(b"op=add "),
        Kind::Mul => out.put(b"op=mul "),
        Kind::Deref => out.put(b"op=deref "),
        Kind::Jump => out.put(b"op=jump "),
        Kind::Extension { op: Op::Add, .. } => out.put(b"op=xadd "),
        Kind::Extension { op: Op::Mul, .. } => out.put(b"op=xmul "),
        Kind::Extension { op: Op::Peq, .. } => out.put(b"op=xpeq "),
    }
}

// A key, an operand and the byte that ends it.
fn put_operand(key: &[u8], o: Operand, end: u8, out: &mut Out)
    requires { Room out.old (operand_piece key.now o end) }
    ensures { Put out.old (operand_piece key.now o end) out.new }
{
    let number = u64::from(o.word);
    out.put(key);
    match o.mode {
        Mode::Immediate => out.put_number(b"imm:", number, end),
        Mode::Cell => out.put_number(b"cell:", number, end),
        Mode::Frame => out.put_number(b"fp:", number, end),
    }
}

// LF where operand C is the last, and a space where be= comes behind it.
fn end_byte(kind: Kind) -> u8
    ensures { result ≡ end_byte kind }
{
    match kind {
        Kind::Extension { .. } => b' ',
        _ => b'\n',
    }
}

// be= and n= of an extension, and LF.
fn put_be(be: bool, n: u32, out: &mut Out)
    requires { Room out.old (numbered (be_text be) n 10) }
    ensures { Put out.old (numbered (be_text be) n 10) out.new }
{
    let number = u64::from(n);
    if be {
        out.put_number(b"be=1 n=", number, b'\n');
    } else {
        out.put_number(b"be=0 n=", number, b'\n');
    }
}

// What stands behind operand C: nothing, where that brought LF.
fn put_call(kind: Kind, out: &mut Out)
    requires { Room out.old (call_piece kind) }
    ensures { Put out.old (call_piece kind) out.new }
{
    if let Kind::Extension { be, n, .. } = kind {
        put_be(be, n, out);
    }
}

// A form's line.
pub(crate) fn put_form(f: Form, out: &mut Out)
    requires { Room out.old (form_line f) }
    ensures { Put out.old (form_line f) out.new }
{
    let kind = f.kind;
    put_op(kind, out);
    put_operand(b"a=", f.a, b' ', out);
    put_operand(b"b=", f.b, b' ', out);
    put_operand(b"c=", f.c, end_byte(kind), out);
    put_call(kind, out);
}
