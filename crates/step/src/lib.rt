// One step of a task: its act, and the table's one change.
#![tactic(auto)]

ghost use Rattle.machine.specs.Entries.{ends};
ghost use Rattle.machine.specs.Call.{Call};
ghost use Rattle.machine.specs.Calls.{Meets};

use table::{Outcome, Table};

// One step of a task. The table lies in one local, which is changed once; it goes on whole only where the act leaves more to do.
#[tactic(auto, using(crate::proofs::Acts::step_whole, crate::proofs::Acts::step_plain), unfolding(machine::specs::Step::step_of))]
pub fn step(t: Table, words: &mut [u32], task: u32) -> Outcome
    ensures { Meets (Call.Step task) t words.old (ends result words.new) }
{
    let mut u = t;
    if let Err(x) = gates::task_gate(&u, words.len(), task) {
        // (Taken apart: handed on whole, the outcome of a refusal costs every step one more copy of the table.)
        let o = entries::refused(u, x);
        return Outcome {
            table: o.table,
            answer: o.answer,
        };
    }
    let i = task as usize;
    let e = u.tasks[i];
    let a = acts::task_act(&u, words, &e);
    let end = gates::end_of(u.upper, u.limits.h);
    let Some(n) = after::after_act(u.on, end, &e, a) else {
        return settle::settle_act(u, words, i, a);
    };
    u.marks = n.marks;
    u.tasks[i] = n.entry;
    Outcome {
        table: u,
        answer: n.answer,
    }
}
