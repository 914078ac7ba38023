// Begin of New: no word is written, and the task's first place is recorded.
#![tactic(auto)]

ghost use Rattle.std.specs.Prelude.{◌≡◌, OnErr};
ghost use Rattle.machine.specs.Entries.{ends};
ghost use Rattle.machine.specs.Begin.{begin_new_of};
ghost use Rattle.machine.specs.Call.{Call};
ghost use Rattle.machine.specs.Calls.{Meets};
ghost use Rattle.entries.specs.Answered.{answered};

use table::{Answer, Outcome, Place, Refusal, Table, Wanted};

// A New asks for what can be, of a task that is idle and has no object pending.
#[tactic(auto, unfolding(machine::specs::Begin::begin_new_of, machine::specs::Entries::with_place, machine::specs::Entries::with_task))]
fn asked(t: &mut Table, words: &[u32], task: u32, w: Wanted) -> Result<Answer, Refusal>
    ensures given { answered t.new result ≡ begin_new_of t.old words.now task w.register w.len w.m }
    ensures unchanged { OnErr result (t.new ≡ t.old) }
{
    gates::task_gate(t, words.len(), task)?;
    if !gates::new_ok(t.limits.s, w) {
        return Err(Refusal::NoRegister);
    }
    let mut e = t.tasks[task as usize];
    if !tasks::idle(e.place) || e.pending.is_some() {
        return Err(Refusal::OutOfTurn);
    }
    if opening::held(t) {
        return Err(Refusal::Held);
    }
    e.place = Place::New(w);
    t.tasks[task as usize] = e;
    Ok(Answer::Accepted)
}

pub fn begin_new(t: Table, words: &[u32], task: u32, r: u32, len: u32, m: u32) -> Outcome
    ensures { Meets (Call.New task r len m) t words.now (ends result words.now) }
{
    let mut u = t;
    let answer = asked(
        &mut u,
        words,
        task,
        Wanted {
            register: r,
            len,
            m,
        },
    );
    entries::answered(u, answer)
}
