// The execution row of a step, through its own bytes of the table.
ghost use Rattle.std.specs.Prelude.{◌≡◌, ◌+◌, ◌*◌, ◌≤◌, length};
ghost use Rattle.tabler_rows.specs.Placed.{exec_bytes, placed, row_by};

use rows::{Exec, put_exec};
use tabler_operands::{Operands, State};

// The execution row of a state whose operands were looked at.
fn row_of(s: State, o: Operands) -> Exec
    ensures { result ≡ row_by s.pc s.fp o }
{
    Exec {
        pc: s.pc,
        fp: s.fp,
        addrA: o.a.addr,
        addrB: o.b.addr,
        addrC: o.c.addr,
        valueA: o.a.cell,
        valueB: o.b.cell,
        valueC: o.c.cell,
    }
}

// That row, through the 32 bytes of row r.
pub fn put_row(s: State, o: Operands, r: usize, exec: &mut [u8])
    requires { 32 * r + 32 ≤ length exec.old }
    ensures { exec.new ≡ placed exec.old (32 * r) (32 * r + 32) (exec_bytes (row_by s.pc s.fp o)) }
{
    let row = row_of(s, o);
    let at = 32 * r;
    let end = at + 32;
    put_exec(&mut exec[at..end], row);
}
