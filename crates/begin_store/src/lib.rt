// Begin of Store of a plain word, and what that of a pointer shares: no word is written, and the task's first place is recorded.
#![tactic(auto)]

ghost use Rattle.std.specs.Prelude.{◌≡◌, ◌+◌, ◌≤◌, ◌<◌, length, get_or, Some, OnErr, IfOk};
ghost use Rattle.table.specs.declared.Answer.TheVariants.{Accepted};
ghost use Rattle.machine.specs.Entries.{entry, ends};
ghost use Rattle.machine.specs.Begin.{begin_store_of, store_place};
ghost use Rattle.machine.specs.Call.{Call};
ghost use Rattle.machine.specs.Calls.{Meets};
ghost use Rattle.entries.specs.Answered.{answered};
ghost use Rattle.begin_store.specs.Gate.{store_gate_of, recorded_of, Within};

use table::{Answer, Operand, Outcome, Place, Primary, Refusal, Slot, Table, Task, Then};

// The tests of a Store of v into this slot, behind the opening: whether the heap is held, and whether another task's Store is on
// the slot, has been asked before.
#[tactic(auto, unfolding(crate::specs::Gate::store_gate_of))]
pub fn store_gate(
    words: &[u32],
    s: u32,
    held: bool,
    taken: bool,
    at: Slot,
    v: Operand<Primary>,
) -> Result<(), Refusal>
    ensures { (result ≡ store_gate_of words.now s held taken at.object at.index v) × Within result (at.object.0 + at.index) (length words.now) }
{
    if held {
        return Err(Refusal::Held);
    }
    if at.object == Primary(0) {
        return Err(Refusal::NilObject);
    }
    let o = objects::object_at(words, s, at.object).ok_or(Refusal::Damaged)?;
    if o.len <= at.index || !opening::right_kind(v, at.index, o.m) {
        return Err(Refusal::NoSlot);
    }
    if taken {
        return Err(Refusal::SlotInStore);
    }
    Ok(())
}

// The first place of a Store: while collecting, a non-nil old pointer is looked at first.
fn store_place(on: bool, old: u32, v: Operand<Primary>) -> Place
    ensures { result ≡ store_place on old v }
{
    match v {
        Operand::Pointer(_) if on && old != 0 => Place::Looking(Primary(old), Then::ToWrite(v)),
        _ => Place::StoreWrite(v),
    }
}

// The entry of a task whose Store has begun.
pub fn begun(e: Task, words: &[u32], on: bool, at: Slot, v: Operand<Primary>) -> Task
    requires { at.object.0 + at.index < length words.now }
    ensures { result ≡ entry e.regs e.pending (Some at) (store_place on (get_or words.now (at.object.0 + at.index) 0) v) }
{
    let old = words[at.object.0 as usize + at.index as usize];
    Task {
        storing: Some(at),
        place: store_place(on, old, v),
        ..e
    }
}

// Behind the opening: a Store of v into this slot has begun, or is refused.
#[tactic(auto, using(crate::proofs::Opens::by_gate), unfolding(machine::specs::Entries::with_task, machine::specs::Tasks::slot_taken))]
pub fn recorded(
    t: &mut Table,
    words: &[u32],
    task: u32,
    at: Slot,
    v: Operand<Primary>,
) -> Result<Answer, Refusal>
    requires { (task < 8) × (t.old.limits.p ≤ 8) × (t.old.limits.h ≤ 8190) }
    ensures given { answered t.new result ≡ recorded_of t.old words.now task at v }
    ensures accepted { IfOk result (λ answer. answer ≡ Accepted) }
    ensures unchanged { OnErr result (t.new ≡ t.old) }
{
    let held = opening::held(t);
    let taken = search::row_of(t).slot_taken(task, at);
    store_gate(words, t.limits.s, held, taken, at, v)?;
    let e = t.tasks[task as usize];
    t.tasks[task as usize] = begun(e, words, t.on, at, v);
    Ok(Answer::Accepted)
}

#[tactic(auto, using(opening::proofs::Opens::by_opening, opening::proofs::Opens::one_register), unfolding(machine::specs::Begin::begin_store_of, machine::specs::Begin::store_from))]
fn stored(
    t: &mut Table,
    words: &[u32],
    task: u32,
    object: u32,
    slot: u32,
    word: u32,
) -> Result<Answer, Refusal>
    ensures given { answered t.new result ≡ begin_store_of t.old words.now task object slot word }
    ensures unchanged { OnErr result (t.new ≡ t.old) }
{
    let e = opening::turn(t, words.len(), task, object, object)?;
    let at = Slot {
        object: e.regs[object as usize],
        index: slot,
    };
    recorded(t, words, task, at, Operand::Plain(word))
}

pub fn begin_store(t: Table, words: &[u32], task: u32, object: u32, slot: u32, word: u32) -> Outcome
    ensures { Meets (Call.Store task object slot word) t words.now (ends result words.now) }
{
    let mut u = t;
    let answer = stored(&mut u, words, task, object, slot, word);
    entries::answered(u, answer)
}
