// The end of an instruction, and the switch-over: the entries change, the words do not.
#![tactic(auto)]

ghost use Rattle.std.specs.Prelude.{◌≡◌, ◌≤◌, ◌<◌, set};
ghost use Rattle.machine.specs.Entries.{ends};
ghost use Rattle.machine.specs.Switch.{switch_of, switch_due, ended_entry, finish_of};
ghost use Rattle.switch.specs.Capped.{Capped};

use table::{Answer, Making, Marks, Outcome, Place, Primary, Refusal, Sought, Table, Task};

// t, the table after the action, switched over; or `came`, the table before it, dead for a pointer without replica.
#[tactic(auto, unfolding(machine::specs::Switch::switch_of))]
fn switch_over(came: Table, t: Table, words: &[u32], answer: Answer) -> Outcome
    requires { t.limits.p ≤ 8 }
    ensures { result ≡ switch_of came t words.now answer }
{
    let l = t.limits;
    if let Some(roots) = renames::pointers(words, l.s, t.roots)
        && let Some(tasks) = renames::all_entries(words, l.s, l.p as usize, t.tasks)
    {
        return Outcome {
            table: Table {
                on: false,
                roots,
                tasks,
                ..t
            },
            answer,
        };
    }
    entries::refused(came, Refusal::Damaged)
}

// The collector on, nothing grey and all tasks idle.
#[tactic(auto, unfolding(machine::specs::Switch::switch_due, machine::specs::Tasks::grey_of, machine::specs::Tasks::seek_of))]
fn switch_due(t: &Table) -> bool
    requires { Capped t.now.limits }
    ensures { result ≡ switch_due t.now }
{
    let row = search::row_of(t);
    t.on && !row.grey(t.marks, gates::end_of(t.upper, t.limits.h)) && !row.any(Sought::Busy)
}

// A register set. (One above 7 is none: the step has refused it before it acted.)
fn with_pointer(mut regs: [Primary; 8], r: u32, p: Primary) -> [Primary; 8]
    ensures { result ≡ set regs r p }
{
    if r < 8 {
        regs[r as usize] = p;
    }
    regs
}

// The task idle; a pending object with all its slots filled goes to its register.
pub fn ended_entry(e: &Task, pending: Option<Making>) -> Task
    ensures { result ≡ ended_entry e.now.regs pending }
{
    let (regs, pending) = match pending {
        Some(d) if d.filled == d.len => (with_pointer(e.regs, d.register, d.at), None),
        _ => (e.regs, pending),
    };
    Task {
        regs,
        pending,
        storing: None,
        place: Place::Idle,
    }
}

// The instruction of task i ends in this step, with an answer: the action left these marks and this pending object. (The
// table is handed on whole: a type of it and a task number below eight would lengthen each use.)
#[tactic(auto, unfolding(machine::specs::Switch::finish_of))]
pub fn finish(
    t: Table,
    words: &[u32],
    i: usize,
    marks: Marks,
    pending: Option<Making>,
    answer: Answer,
) -> Outcome
    requires { (i < 8) × Capped t.limits }
    ensures { ends result words.now ≡ finish_of t words.now i marks pending answer }
{
    let e = ended_entry(&t.tasks[i], pending);
    let mut table = Table { marks, ..t };
    table.tasks[i] = e;
    if switch_due(&table) {
        return switch_over(t, table, words, answer);
    }
    Outcome { table, answer }
}
