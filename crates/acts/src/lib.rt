// What the step of a task comes to, from its entry and the words alone.
#![tactic(auto)]

ghost use Rattle.std.specs.Prelude.{◌≡◌, length};
ghost use Rattle.machine.specs.Bounds.{Sound};
ghost use Rattle.machine.specs.Entries.{pending_ok};
ghost use Rattle.new.specs.Acts.{came};
ghost use Rattle.acts.specs.TaskActs.{task_act};

use new::Act;
use table::{Making, Refusal, Table, Task};

// The register that a pending object goes to is one.
fn pending_ok(pending: Option<Making>) -> bool
    ensures { result ≡ pending_ok pending }
{
    pending.is_none_or(|d| d.register < 8)
}

// What the step of a task with entry e comes to. (The table is only read: see `new_off` for why no type holds it and the words.)
#[tactic(auto, unfolding(crate::specs::TaskActs::task_act))]
pub fn task_act(t: &Table, words: &mut [u32], e: &Task) -> Act
    requires { Sound t.now.limits t.now.upper t.now.marks (length words.old) }
    ensures { came result words.new ≡ task_act t.now words.old e.now }
{
    if tasks::idle(e.place) {
        return new::failing(Refusal::OutOfTurn);
    }
    if !pending_ok(e.pending) {
        return new::failing(Refusal::Damaged);
    }
    if t.on {
        return act_on::on_act(t, words, e);
    }
    act_off::off_act(t, words, e)
}
