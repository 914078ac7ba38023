// What every call tests first: limits and buffer (1), the dead number, the table's numbers (11), the task (2), registers (3).
#![tactic(auto)]

ghost use Rattle.std.specs.Prelude.{◌≡◌, ◌+◌, ◌*◌, ◌≤◌, ◌<◌};
ghost use Rattle.machine.specs.Basics.{When};
ghost use Rattle.machine.specs.Words.{bottom_of, end_of};
ghost use Rattle.machine.specs.Bounds.{Limited, Sized, Fits, Opened, Admitted, Paired};
ghost use Rattle.machine.specs.Begin.{new_ok};
ghost use Rattle.machine.specs.Gate.{limits_ok, sizes_ok, marks_ok, gate_of, task_gate_of, pair_gate_of};

use table::{Life, Limits, Marks, Refusal, Table, Wanted};

#[tactic(auto, unfolding(machine::specs::Gate::limits_ok))]
pub fn limits_ok(l: Limits) -> bool
    ensures { (result ≡ limits_ok l) × When result (Limited l) }
{
    if l.p < 1 || 8 < l.p || l.s < 1 || 255 < l.s {
        return false;
    }
    if l.h < 64 || 8190 < l.h {
        return false;
    }
    !(l.k < 1 || 16 < l.k)
}

// The limits, and a buffer of exactly 2+2H words.
#[tactic(auto, unfolding(machine::specs::Gate::sizes_ok))]
pub fn sizes_ok(l: Limits, n: usize) -> bool
    ensures { (result ≡ sizes_ok l n) × When result (Sized l n) }
{
    limits_ok(l) && n == 2 + 2 * l.h as usize
}

// The first word of the space in use. (The half is a plain number, as in a table that anybody may hand in: a caller shows its
// bound, and no type narrows it.)
#[tactic(auto, unfolding(machine::specs::Words::bottom_of))]
pub fn bottom_of(upper: bool, h: u32) -> u32
    requires { h ≤ 8190 }
    ensures { (result ≡ bottom_of upper h) × (2 ≤ result) × (result ≤ h + 2) }
{
    if upper {
        return h + 2;
    }
    2
}

// The word after the space in use.
#[tactic(auto, unfolding(machine::specs::Words::end_of))]
pub fn end_of(upper: bool, h: u32) -> u32
    requires { h ≤ 8190 }
    ensures { (result ≡ end_of upper h) × (result ≤ 2 + 2 * h) }
{
    bottom_of(upper, h) + h
}

// The table's numbers can be.
#[tactic(auto, unfolding(machine::specs::Gate::marks_ok))]
pub fn marks_ok(l: Limits, upper: bool, m: Marks) -> bool
    requires { Limited l }
    ensures { (result ≡ marks_ok l upper m) × When result ((bottom_of upper l.h ≤ m.a) × Fits m (end_of upper l.h) (2 + 2 * l.h)) }
{
    let bottom = bottom_of(upper, l.h);
    let end = end_of(upper, l.h);
    !(m.a < bottom
        || end < m.top
        || m.top < m.a
        || m.top - m.a < m.j
        || l.p < m.j
        || l.h < m.copies)
}

#[tactic(auto, unfolding(machine::specs::Gate::gate_of))]
pub fn gate(t: &Table, n: usize) -> Result<(), Refusal>
    ensures { (result ≡ gate_of t.now.limits t.now.life t.now.upper t.now.marks n) × Opened result t.now.limits t.now.upper t.now.marks n }
{
    if !sizes_ok(t.limits, n) {
        return Err(Refusal::WrongLimit);
    }
    match t.life {
        Life::Living if marks_ok(t.limits, t.upper, t.marks) => Ok(()),
        Life::Spent => Err(Refusal::Exhausted),
        _ => Err(Refusal::Damaged),
    }
}

#[tactic(auto, unfolding(machine::specs::Gate::task_gate_of))]
pub fn task_gate(t: &Table, n: usize, task: u32) -> Result<(), Refusal>
    ensures { (result ≡ task_gate_of t.now.limits t.now.life t.now.upper t.now.marks n task) × Admitted result t.now.limits t.now.upper t.now.marks n task }
{
    gate(t, n)?;
    if task < t.limits.p {
        Ok(())
    } else {
        Err(Refusal::NoTask)
    }
}

// The same for a call with two registers or roots.
#[tactic(auto, unfolding(machine::specs::Gate::pair_gate_of))]
pub fn pair_gate(t: &Table, n: usize, task: u32, a: u32, b: u32) -> Result<(), Refusal>
    ensures { (result ≡ pair_gate_of t.now.limits t.now.life t.now.upper t.now.marks n task a b) × Paired result t.now.limits t.now.upper t.now.marks n task a b }
{
    task_gate(t, n, task)?;
    if 7 < a || 7 < b {
        return Err(Refusal::NoRegister);
    }
    Ok(())
}

// What a New may ask for: a register up to 7, L up to S, m up to L.
#[tactic(auto, unfolding(machine::specs::Begin::new_ok))]
pub fn new_ok(s: u32, w: Wanted) -> bool
    ensures { (result ≡ new_ok s w.register w.len w.m) × When result ((w.register < 8) × (w.len ≤ s) × (w.m ≤ w.len)) }
{
    !(7 < w.register || s < w.len || w.len < w.m)
}
