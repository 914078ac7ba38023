// Begin of Fill with a plain word, and what that with a pointer shares: no word is written, and the task's first place is recorded.
#![tactic(auto)]

ghost use Rattle.std.specs.Prelude.{◌≡◌, ◌≤◌, ◌<◌, OnErr, IfOk};
ghost use Rattle.table.specs.declared.Answer.TheVariants.{Accepted};
ghost use Rattle.machine.specs.Entries.{ends};
ghost use Rattle.machine.specs.Begin.{begin_fill_of, fill_pending};
ghost use Rattle.machine.specs.Call.{Call};
ghost use Rattle.machine.specs.Calls.{Meets};
ghost use Rattle.entries.specs.Answered.{answered};
ghost use Rattle.begin_fill.specs.Gate.{fill_gate_of};

use table::{Answer, Making, Operand, Outcome, Place, Primary, Refusal, Table};

// The tests of a Fill behind the opening, and whether the heap is held has been asked before: the next slot of the pending
// object takes v.
#[tactic(auto, unfolding(crate::specs::Gate::fill_gate_of))]
pub fn fill_gate(
    words: &[u32],
    s: u32,
    held: bool,
    pending: Option<Making>,
    v: Operand<Primary>,
) -> Result<(), Refusal>
    ensures { result ≡ fill_gate_of words.now s held v pending }
{
    let Making { at, filled, .. } = pending.ok_or(Refusal::OutOfTurn)?;
    if held {
        return Err(Refusal::Held);
    }
    let o = objects::object_at(words, s, at).ok_or(Refusal::Damaged)?;
    if o.len <= filled {
        return Err(Refusal::Damaged);
    }
    if opening::right_kind(v, filled, o.m) {
        Ok(())
    } else {
        Err(Refusal::NoSlot)
    }
}

// Behind the opening: a Fill with v has begun, or is refused.
#[tactic(auto, using(crate::proofs::Opens::by_gate), unfolding(machine::specs::Entries::with_place, machine::specs::Entries::with_task))]
pub fn recorded(
    t: &mut Table,
    words: &[u32],
    task: u32,
    pending: Option<Making>,
    v: Operand<Primary>,
) -> Result<Answer, Refusal>
    requires { (task < 8) × (t.old.limits.p ≤ 8) × (t.old.limits.h ≤ 8190) }
    ensures given { answered t.new result ≡ fill_pending t.old words.now task v pending }
    ensures accepted { IfOk result (λ answer. answer ≡ Accepted) }
    ensures unchanged { OnErr result (t.new ≡ t.old) }
{
    fill_gate(words, t.limits.s, opening::held(t), pending, v)?;
    t.tasks[task as usize].place = Place::FillWrite(v);
    Ok(Answer::Accepted)
}

#[tactic(auto, using(opening::proofs::Opens::by_opening, opening::proofs::Opens::no_register), unfolding(machine::specs::Begin::begin_fill_of, machine::specs::Begin::fill_from))]
fn filled(t: &mut Table, words: &[u32], task: u32, word: u32) -> Result<Answer, Refusal>
    ensures given { answered t.new result ≡ begin_fill_of t.old words.now task word }
    ensures unchanged { OnErr result (t.new ≡ t.old) }
{
    let e = opening::turn(t, words.len(), task, 0, 0)?;
    recorded(t, words, task, e.pending, Operand::Plain(word))
}

pub fn begin_fill(t: Table, words: &[u32], task: u32, word: u32) -> Outcome
    ensures { Meets (Call.Fill task word) t words.now (ends result words.now) }
{
    let mut u = t;
    let answer = filled(&mut u, words, task, word);
    entries::answered(u, answer)
}
