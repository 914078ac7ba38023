// What an act makes of the table, which goes whole to whatever ends, waits, asks or fails.
#![tactic(auto)]

ghost use Rattle.std.specs.Prelude.{◌≡◌, ◌≤◌, ◌<◌, length};
ghost use Rattle.table.specs.declared.Place.TheVariants.{Asked};
ghost use Rattle.table.specs.declared.Sought.TheVariants.{Blocker};
ghost use Rattle.machine.specs.Entries.{ends};
ghost use Rattle.machine.specs.Tasks.{seek_of};
ghost use Rattle.machine.specs.New.{ask_or};
ghost use Rattle.machine.specs.Step.{wait_of, settle_of, empty_take_of};
ghost use Rattle.switch.specs.Capped.{Capped};
ghost use Rattle.flip.specs.Spaced.{Spaced};
ghost use Rattle.new.specs.Acts.{settle_act};

use new::Act;
use table::{Answer, Deed, Outcome, Place, Refusal, Sought, Table, Wanted};

// The step waits for the lowest-numbered task that is sought.
#[tactic(auto, unfolding(machine::specs::Step::wait_of, machine::specs::Tasks::seek_of))]
fn wait(t: Table, w: Sought) -> Outcome
    requires { t.limits.p ≤ 8 }
    ensures { result ≡ wait_of t w }
{
    let holder = search::row_of(&t).seek(w);
    let Some(q) = holder else {
        return entries::refused(t, Refusal::Damaged);
    };
    Outcome {
        table: t,
        answer: Answer::Wait(q),
    }
}

// What an action of task i makes of the table. (Here and below the table is handed on whole, as in `finish` of crates/switch: a
// type of it and a task number below eight would lengthen each use.)
#[tactic(auto, unfolding(machine::specs::Step::settle_of))]
fn settle(t: Table, words: &[u32], i: usize, d: Deed) -> Outcome
    requires { (i < 8) × Capped t.limits }
    ensures { ends result words.now ≡ settle_of t i d words.now }
{
    let as_it_is = t.tasks[i].pending;
    match d {
        Deed::Goes(m, place) => Outcome {
            table: entries::moved_table(t, i, m, as_it_is, place),
            answer: Answer::Moved,
        },
        Deed::GoesWith(m, pending, place) => Outcome {
            table: entries::moved_table(t, i, m, pending, place),
            answer: Answer::Moved,
        },
        Deed::Ends(m) => switch::finish(t, words, i, m, as_it_is, Answer::Done),
        Deed::EndsWith(m, pending) => switch::finish(t, words, i, m, pending, Answer::Done),
        Deed::Waits(w) => wait(t, w),
        Deed::Fails(x) => entries::refused(t, x),
    }
}

// A take that finds the stack empty: the payment ends if nothing is grey, else it waits.
#[tactic(auto, unfolding(machine::specs::Step::empty_take_of, machine::specs::Tasks::grey_of, machine::specs::Tasks::seek_of))]
fn empty_take(t: Table, words: &[u32], i: usize) -> Outcome
    requires { (i < 8) × Capped t.limits }
    ensures { ends result words.now ≡ empty_take_of t words.now i }
{
    let end = gates::end_of(t.upper, t.limits.h);
    if search::row_of(&t).grey(t.marks, end) {
        return wait(t, Sought::Worker(i as u32));
    }
    let m = t.marks;
    let pending = t.tasks[i].pending;
    switch::finish(t, words, i, m, pending, Answer::Done)
}

// A New asks for a flip, which is made if no other task stands in its way; else the asking is recorded.
#[tactic(auto, unfolding(machine::specs::Tasks::seek_of))]
fn ask(t: Table, words: &mut [u32], i: usize, w: Wanted) -> Outcome
    requires { (i < 8) × Spaced t.limits (length words.old) }
    ensures { ends result words.new ≡ ask_or t words.old i (Asked w) (seek_of t.tasks t.limits.p (Blocker i)) }
{
    let blocker = search::row_of(&t).seek(Sought::Blocker(i as u32));
    let Some(q) = blocker else {
        return flip::flip(t, words);
    };
    Outcome {
        table: entries::with_place(t, i, Place::Asked(w)),
        answer: Answer::Wait(q),
    }
}

// What an act of task i makes of the table.
#[tactic(auto, unfolding(new::specs::Acts::settle_act))]
pub fn settle_act(t: Table, words: &mut [u32], i: usize, a: Act) -> Outcome
    requires { (i < 8) × Spaced t.limits (length words.old) }
    ensures { ends result words.new ≡ settle_act t i a words.old }
{
    match a {
        Act::Does(d) => settle(t, words, i, d),
        Act::Asks(w) => ask(t, words, i, w),
        Act::Denied => {
            let m = t.marks;
            let pending = t.tasks[i].pending;
            switch::finish(t, words, i, m, pending, Answer::No(Refusal::NoRoom))
        }
        Act::Drained => empty_take(t, words, i),
    }
}
