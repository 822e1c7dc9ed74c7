// One step of the machine by what its operands read: where it goes, that its group has no room, or why it is stuck.
#![tactic(auto)]

ghost use Rattle.std.specs.Prelude.{◌≡◌, ◌+◌, ◌/◌, ◌<◌, ◌^◌, length, true, false, IfErr, OnOk};
ghost use Rattle.rules.specs.Sizes.{word_of};
ghost use Rattle.machine.specs.Step.{asked, forward, jumps};
ghost use Rattle.tables.specs.Groups.{length_of};
ghost use Rattle.tabler_operands.specs.Looked.{at};
ghost use Rattle.tabler_rows.specs.Placed.{group_bytes};
ghost use Rattle.tabler_step.specs.Taken.{moved_of, taken_of, taken_ext, kind_bytes, extended, performed_by, step_by, Ready};

use form::Kind;
use tabler_operands::{Group, Operands, State, cells_exist, result_holds};
use tabler_rows::group_holds;
use word::{add, mul};

// Where a step goes, with so many rows filled then.
#[derive(Clone, Copy)]
pub struct Moved {
    pub to: State,
    pub filled: usize,
}

// Why a step goes nowhere: it is stuck by a rule, or without room for its group.
#[derive(Clone, Copy)]
pub enum Halt {
    // stays: `Refusal::Stuck`, and `stuck` of the machine, tell the rule by its number.
    Stuck { rule: u32 },
    Full,
}

// Stuck by a rule where what it asks does not hold.
fn ask(rule: u32, holds: bool) -> Result<(), Halt>
    ensures ok { OnOk result (holds ≡ true) }
    ensures err { IfErr result (λ e. (holds ≡ false) × (e ≡ Halt.Stuck rule)) }
{
    if holds {
        Ok(())
    } else {
        Err(Halt::Stuck { rule })
    }
}

// On to the next instruction where what is asked holds.
fn forward_if(rule: u32, holds: bool, s: State, filled: usize) -> Result<Moved, Halt>
    requires { s.pc + 1 < 2 ^ 32 }
    ensures { result ≡ moved_of (asked rule holds (forward (at s.pc s.fp))) filled }
{
    ask(rule, holds)?;
    let to = State { pc: s.pc + 1, ..s };
    Ok(Moved { to, filled })
}

fn jump(condition: u32, dest: u32, frame: u32, s: State, filled: usize) -> Result<Moved, Halt>
    requires { s.pc + 1 < 2 ^ 32 }
    ensures { result ≡ moved_of (jumps condition dest frame (at s.pc s.fp)) filled }
{
    if condition == 1 {
        let to = State {
            pc: dest,
            fp: frame,
        };
        return Ok(Moved { to, filled });
    }
    forward_if(6, condition == 0, s, filled)
}

// A group needs room for itself and one row more. Without it its result is still asked for: STUCK comes before ROOM.
fn extend(memory: &[u8], s: State, g: Group, filled: usize, ext: &mut [u8]) -> Result<Moved, Halt>
    requires { Ready s.pc memory.now filled ext.old }
    ensures value { result ≡ taken_of (extended (word_of memory.now) (length memory.now / 4) (at s.pc s.fp) g) (filled + g.n) (length ext.old / 120) }
    ensures ext_after { ext.new ≡ taken_ext (extended (word_of memory.now) (length memory.now / 4) (at s.pc s.fp) g) filled g.n (group_bytes (word_of memory.now) g) ext.old }
{
    ask(7, cells_exist(memory, g))?;
    let room = ext.len() / 120;
    let after = filled + (g.n as usize);
    if room <= after {
        ask(8, result_holds(memory, g))?;
        return Err(Halt::Full);
    }
    let holds = group_holds(memory, g, filled, ext);
    forward_if(8, holds, s, after)
}

// What each kind asks of its operands' values.
fn perform(
    memory: &[u8],
    s: State,
    kind: Kind,
    o: Operands,
    filled: usize,
    ext: &mut [u8],
) -> Result<Moved, Halt>
    requires { Ready s.pc memory.now filled ext.old }
    ensures value { result ≡ taken_of (performed_by (word_of memory.now) (length memory.now / 4) (at s.pc s.fp) o kind) (filled + length_of kind) (length ext.old / 120) }
    ensures ext_after { ext.new ≡ taken_ext (performed_by (word_of memory.now) (length memory.now / 4) (at s.pc s.fp) o kind) filled (length_of kind) (kind_bytes (word_of memory.now) kind o) ext.old }
{
    let (a, b, c) = (o.a.value, o.b.value, o.c.value);
    match kind {
        Kind::Add => forward_if(5, add(a, c) == b, s, filled),
        Kind::Mul => forward_if(5, mul(a, c) == b, s, filled),
        Kind::Deref => forward_if(5, o.b.cell == c, s, filled),
        Kind::Jump => jump(a, b, c, s, filled),
        Kind::Extension { op, be, n } => {
            let g = Group { op, be, n, a, b, c };
            extend(memory, s, g, filled, ext)
        }
    }
}

// The step of a kind by its operands. All have to be legal before anything is asked of them, on an untaken jump too.
pub fn take_step(
    memory: &[u8],
    s: State,
    kind: Kind,
    o: Operands,
    filled: usize,
    ext: &mut [u8],
) -> Result<Moved, Halt>
    requires { Ready s.pc memory.now filled ext.old }
    ensures value { result ≡ taken_of (step_by (word_of memory.now) (length memory.now / 4) (at s.pc s.fp) o kind) (filled + length_of kind) (length ext.old / 120) }
    ensures ext_after { ext.new ≡ taken_ext (step_by (word_of memory.now) (length memory.now / 4) (at s.pc s.fp) o kind) filled (length_of kind) (kind_bytes (word_of memory.now) kind o) ext.old }
{
    ask(2, o.a.legal)?;
    ask(3, o.b.legal)?;
    ask(4, o.c.legal)?;
    perform(memory, s, kind, o, filled, ext)
}
