// The flip, one step: the pending objects, then the roots, then the registers task by task; and the table after them.
#![tactic(auto)]

ghost use Rattle.std.specs.Prelude.{◌≡◌, not, ◌+◌, ◌*◌, ◌≤◌, length};
ghost use Rattle.machine.specs.Basics.{first_of};
ghost use Rattle.machine.specs.Words.{end_of};
ghost use Rattle.machine.specs.Bounds.{Fits};
ghost use Rattle.machine.specs.Entries.{ends};
ghost use Rattle.machine.specs.Flip.{went, empty_space, unasked, unasked_entry, passes_of, flip_of};
ghost use Rattle.flip.specs.Spaced.{Spaced};

use table::{Answer, Marks, Outcome, Place, Refusal, Table, Task};
use visits::Space;

// A New that stood waiting goes on in the collecting rules.
#[tactic(auto, unfolding(machine::specs::Flip::unasked))]
fn unasked(place: Place) -> Place
    ensures { result ≡ unasked place }
{
    match place {
        Place::Asked(want) => Place::New(want),
        _ => place,
    }
}

// The entries of the first p tasks made new; those behind them stay in the array.
fn unasked_tasks(tasks: [Task; 8], p: usize) -> [Task; 8]
    requires { p ≤ 8 }
    ensures { result ≡ first_of p unasked_entry tasks }
{
    let mut u = tasks;
    for e in u[..p].iter_mut() {
        e.place = unasked(e.place);
    }
    u
}

// The space to come, all of it free. (The half is a plain number: see crates/gates.)
#[tactic(auto, unfolding(machine::specs::Words::end_of))]
fn empty_space(upper: bool, h: u32) -> Marks
    requires { h ≤ 8190 }
    ensures { (result ≡ empty_space upper h) × Fits result (end_of (not upper) h) (2 + 2 * h) }
{
    Marks {
        a: gates::bottom_of(!upper, h),
        top: gates::end_of(!upper, h),
        j: 0,
        copies: 0,
    }
}

// What the three passes leave of the space to come. (The table is only read, and the words are lent on: no type holds both, as in
// crates/new.)
#[tactic(auto, unfolding(machine::specs::Flip::passes_of))]
fn passes(t: &Table, words: &mut [u32]) -> Result<Marks, Refusal>
    requires { Spaced t.now.limits (length words.old) }
    ensures { went result words.new ≡ passes_of t.now words.old }
{
    let l = t.limits;
    let tasks = &t.tasks[..l.p as usize];
    let mut space = Space {
        words,
        s: l.s,
        end: gates::end_of(!t.upper, l.h),
        marks: empty_space(t.upper, l.h),
    };
    space.pendings(tasks)?;
    space.roots(&t.roots)?;
    space.registers(tasks)?;
    Ok(space.marks)
}

// Collecting in the other space; or the table as it came, but dead.
#[tactic(auto, unfolding(machine::specs::Flip::flip_of))]
pub fn flip(t: Table, words: &mut [u32]) -> Outcome
    requires { Spaced t.limits (length words.old) }
    ensures { ends result words.new ≡ flip_of t words.old }
{
    match passes(&t, words) {
        Ok(marks) => Outcome {
            table: Table {
                upper: !t.upper,
                on: true,
                marks,
                tasks: unasked_tasks(t.tasks, t.limits.p as usize),
                ..t
            },
            answer: Answer::Moved,
        },
        Err(x) => entries::refused(t, x),
    }
}
