// Set-up and report.
#![tactic(auto)]

ghost use Rattle.std.specs.Prelude.{◌≡◌, ◌≤◌};
ghost use Rattle.machine.specs.Entries.{ends};
ghost use Rattle.machine.specs.Setup.{limits, fresh_table, unset as unset_table};
ghost use Rattle.machine.specs.Call.{Call};
ghost use Rattle.machine.specs.Calls.{Meets, MeetsSetup};

use table::{Answer, Life, Limits, Marks, Outcome, Place, Primary, Refusal, Table, Task};

// The table of an accepted set-up. (The half is a plain number: see crates/gates.)
fn fresh(limits: Limits) -> Table
    requires { limits.h ≤ 8190 }
    ensures { result ≡ fresh_table limits }
{
    let idle = Task {
        regs: [Primary(0); 8],
        pending: None,
        storing: None,
        place: Place::Idle,
    };
    Table {
        limits,
        upper: false,
        on: false,
        marks: Marks {
            a: 2,
            top: limits.h + 2,
            j: 0,
            copies: 0,
        },
        life: Life::Living,
        roots: [Primary(0); 8],
        tasks: [idle; 8],
    }
}

// A table never set up: every call on it but set-up answers 1.
pub fn unset() -> Table
    ensures { result ≡ unset_table }
{
    fresh(Limits {
        p: 0,
        s: 0,
        h: 0,
        k: 0,
    })
}

// Set-up of the heap in the lent buffer. One that is refused gives the table t back.
#[tactic(auto, unfolding(machine::specs::Setup::setup_of))]
pub fn setup(t: Table, p: u32, s: u32, h: u32, k: u32, words: &mut [u32]) -> Outcome
    ensures { MeetsSetup (limits p s h k) t words.old (ends result words.new) }
{
    let l = Limits { p, s, h, k };
    if !gates::sizes_ok(l, words.len()) {
        return entries::refused(t, Refusal::WrongLimit);
    }
    words.fill(0);
    Outcome {
        table: fresh(l),
        answer: Answer::Accepted,
    }
}

// Whether the collector is on, the words from the bottom of the space in use up to A, the copies of the latest collection.
#[tactic(auto, unfolding(machine::specs::Setup::report_of))]
pub fn report(t: Table, words: &[u32]) -> Outcome
    ensures { Meets Call.Report t words.now (ends result words.now) }
{
    match gates::gate(&t, words.len()) {
        Ok(()) => {
            let live = t.marks.a - gates::bottom_of(t.upper, t.limits.h);
            Outcome {
                table: t,
                answer: Answer::Report(t.on, live, t.marks.copies),
            }
        }
        Err(x) => entries::refused(t, x),
    }
}
