// Same, the call that compares two registers; it completes at once.
#![tactic(auto)]

ghost use Rattle.std.specs.Prelude.{◌≡◌};
ghost use Rattle.machine.specs.Complete.{same_of};
ghost use Rattle.machine.specs.Entries.{ends};
ghost use Rattle.machine.specs.Call.{Call};
ghost use Rattle.machine.specs.Calls.{Meets};
ghost use Rattle.entries.specs.Answered.{answered};

use table::{Answer, Outcome, Refusal, Table};

// Are two registers the same object: 1, or 0.
#[tactic(auto, using(opening::proofs::Opens::by_opening), unfolding(machine::specs::Complete::same_of))]
fn compared(t: &Table, words: &[u32], task: u32, a: u32, b: u32) -> Result<Answer, Refusal>
    ensures { answered t.now result ≡ same_of t.now words.now task a b }
{
    let e = opening::turn(t, words.len(), task, a, b)?;
    let p = e.regs[a as usize];
    let q = e.regs[b as usize];
    Ok(Answer::Value((p == q) as u32))
}

// (Written out in the caller, and through `answered`, a table is copied twice more for each call.)
#[inline(never)]
pub fn same(t: Table, words: &[u32], task: u32, a: u32, b: u32) -> Outcome
    ensures { Meets (Call.Same task a b) t words.now (ends result words.now) }
{
    match compared(&t, words, task, a, b) {
        Ok(answer) => Outcome { table: t, answer },
        Err(x) => entries::refused(t, x),
    }
}
