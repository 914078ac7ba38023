// The opening of a task's calls, which the gate and the turn (6) make up; held (7); and whether a slot takes what is given (5).
#![tactic(auto)]

ghost use Rattle.std.specs.Prelude.{◌≡◌, ◌≤◌, ltb};
ghost use Rattle.machine.specs.Bounds.{Paired};
ghost use Rattle.machine.specs.Gate.{pair_gate_of};
ghost use Rattle.machine.specs.Begin.{held_at, is_pointer, same_test};
ghost use Rattle.opening.specs.Turn.{turn_of, Turned};

use table::{Operand, Primary, Refusal, Table, Task};

// The entry of a task that may call with two registers or roots: the gate lets it through, and it is idle.
// (Written out in each call: called, it has the table and the entry go through memory.)
#[inline(always)]
pub fn turn(t: &Table, n: usize, task: u32, a: u32, b: u32) -> Result<Task, Refusal>
    ensures given { result ≡ turn_of t.now n task a b }
    ensures shown { Turned result t.now task a b }
    ensures paired { Paired (pair_gate_of t.now.limits t.now.life t.now.upper t.now.marks n task a b) t.now.limits t.now.upper t.now.marks n task a b }
{
    gates::pair_gate(t, n, task, a, b)?;
    let e = t.tasks[task as usize];
    if tasks::idle(e.place) {
        Ok(e)
    } else {
        Err(Refusal::OutOfTurn)
    }
}

// A flip is asked and not yet made, or the heap is closing. (The limits are those of any table: see crates/gates.)
#[tactic(auto, unfolding(machine::specs::Tasks::held_of, machine::specs::Tasks::closing_of, machine::specs::Tasks::grey_of, machine::specs::Tasks::seek_of))]
pub fn held(t: &Table) -> bool
    requires { (t.now.limits.h ≤ 8190) × (t.now.limits.p ≤ 8) }
    ensures { result ≡ held_at t.now }
{
    let end = gates::end_of(t.upper, t.limits.h);
    search::row_of(t).held(t.on, t.marks, end)
}

// A pointer is given for a pointer slot, or a plain word for a plain one.
pub fn right_kind(v: Operand<Primary>, slot: u32, m: u32) -> bool
    ensures { result ≡ same_test (is_pointer v) (ltb slot m) }
{
    matches!(v, Operand::Pointer(_)) == (slot < m)
}
