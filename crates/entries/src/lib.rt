// Refusals, how a call ends, and tables with one part changed.
#![tactic(auto)]

ghost use Rattle.std.specs.Prelude.{◌≡◌, ◌<◌};
ghost use Rattle.machine.specs.Entries.{refused as refused_of, out, with_life, with_place, moved_table};
ghost use Rattle.entries.specs.Answered.{answered as answered_of};
ghost use Rattle.table.specs.declared.Answer.TheVariants.{No};

use table::{Answer, Life, Making, Marks, Outcome, Place, Refusal, Table, Task};

fn dead(t: Table, life: Life, x: Refusal) -> Outcome
    ensures { result ≡ out (with_life t life) (No x) }
{
    Outcome {
        table: Table { life, ..t },
        answer: Answer::No(x),
    }
}

fn unchanged(t: Table, x: Refusal) -> Outcome
    ensures { result ≡ out t (No x) }
{
    Outcome {
        table: t,
        answer: Answer::No(x),
    }
}

// A refusal: 10 and 11 mark the table dead. (With one arm for the rest the compiler writes it out in every call, and the
// table is copied a fifth more often.)
pub fn refused(t: Table, x: Refusal) -> Outcome
    ensures { result ≡ refused_of t x }
{
    match x {
        Refusal::WrongLimit => unchanged(t, x),
        Refusal::NoTask => unchanged(t, x),
        Refusal::NoRegister => unchanged(t, x),
        Refusal::NilObject => unchanged(t, x),
        Refusal::NoSlot => unchanged(t, x),
        Refusal::OutOfTurn => unchanged(t, x),
        Refusal::Held => unchanged(t, x),
        Refusal::SlotInStore => unchanged(t, x),
        Refusal::NoRoom => unchanged(t, x),
        Refusal::Exhausted => dead(t, Life::Spent, x),
        Refusal::Damaged => dead(t, Life::Broken, x),
    }
}

// How a call ends that was answered, or refused. (The calls hand it what an inner function made of their one table: a closure in
// place of that would need a clause on what it leaves of a lent table, longer than the line that it saves.)
pub fn answered(t: Table, a: Result<Answer, Refusal>) -> Outcome
    ensures { result ≡ answered_of t a }
{
    match a {
        Ok(answer) => Outcome { table: t, answer },
        Err(x) => refused(t, x),
    }
}

// One task at another place of its instruction. (Here and below i is the task of a step, whose callers hand the table on: see
// crates/settle for why no type holds both.)
#[tactic(auto, unfolding(machine::specs::Entries::with_place, machine::specs::Entries::with_task))]
pub fn with_place(t: Table, i: usize, place: Place) -> Table
    requires { i < 8 }
    ensures { result ≡ with_place t i place }
{
    let mut u = t;
    u.tasks[i].place = place;
    u
}

// One task moved to a place, with these marks and this pending object.
#[tactic(auto, unfolding(machine::specs::Entries::moved_table))]
pub fn moved_table(t: Table, i: usize, m: Marks, pending: Option<Making>, place: Place) -> Table
    requires { i < 8 }
    ensures { result ≡ moved_table t i m pending place }
{
    let mut u = Table { marks: m, ..t };
    let e = u.tasks[i];
    u.tasks[i] = Task {
        pending,
        place,
        ..e
    };
    u
}
