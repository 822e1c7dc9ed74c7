// What an execution row pushes, of tables that passed the stages before the bus: nothing is tested again.
ghost use Rattle.std.specs.Prelude.{◌≡◌, cond, [], length, ◌*◌, ◌/◌, ◌<◌};
ghost use Rattle.rows.specs.Rows.{exec_at};
ghost use Rattle.rules.specs.Bus.{pushed, pushes, instruction_of};
ghost use Rattle.rules.specs.Sizes.{given, tables};
ghost use Rattle.bus_tuples.specs.Sent.{tuple_of};
ghost use Rattle.bus_tuples.specs.Ready.{Listed};

use crate::Sent;
use crate::times::is_precompile;
use crate::tuple::pushed_tuple;
use form::instruction_inside;
use rows::exec_inside;
use word::word_inside;

// A program and execution rows, each of which names one of its instructions, all well-formed.
#[derive(Clone, Copy)]
pub struct ListedRows<'a> {
    pub program: &'a [u8],
    pub exec: &'a [u8],
    pub ghost listed: { Listed program.now exec.now },
}

impl<'a> ListedRows<'a> {
    // Whether execution row r pushes, once. Only pc and the opcode words are read.
    pub fn row_pushes(&self, r: usize) -> bool
        requires { r < length self.now.exec.now / 32 }
        ensures { cond result 1 0 ≡ pushes (instruction_of (given self.now.program.now []) (tables self.now.exec.now []) r) }
    {
        let pc = word_inside(self.exec, 32 * r) as usize;
        is_precompile(instruction_inside(self.program, 48 * pc))
    }

    // The tuple of execution row r.
    pub fn row_tuple(&self, r: usize) -> Sent
        requires { r < length self.now.exec.now / 32 }
        ensures { tuple_of result ≡ pushed (instruction_of (given self.now.program.now []) (tables self.now.exec.now []) r)
            (exec_at self.now.exec.now (32 * r)) }
    {
        let x = exec_inside(self.exec, 32 * r);
        pushed_tuple(instruction_inside(self.program, 48 * (x.pc as usize)), x)
    }
}
