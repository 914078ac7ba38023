// Clear, which makes a register nil; it completes at once.
#![tactic(auto)]

ghost use Rattle.std.specs.Prelude.{◌≡◌, OnErr};
ghost use Rattle.machine.specs.Complete.{clear_of};
ghost use Rattle.machine.specs.Entries.{ends};
ghost use Rattle.machine.specs.Call.{Call};
ghost use Rattle.machine.specs.Calls.{Meets};
ghost use Rattle.entries.specs.Answered.{answered};

use table::{Answer, Outcome, Primary, Refusal, Table};

// A register becomes nil.
#[tactic(auto, using(opening::proofs::Opens::by_opening), unfolding(machine::specs::Complete::clear_of, machine::specs::Entries::with_register, machine::specs::Entries::with_task))]
fn cleared(t: &mut Table, words: &[u32], task: u32, r: u32) -> Result<Answer, Refusal>
    ensures given { answered t.new result ≡ clear_of t.old words.now task r }
    ensures unchanged { OnErr result (t.new ≡ t.old) }
{
    let mut e = opening::turn(t, words.len(), task, r, r)?;
    e.regs[r as usize] = Primary(0);
    t.tasks[task as usize] = e;
    Ok(Answer::Done)
}

pub fn clear_register(t: Table, words: &[u32], task: u32, r: u32) -> Outcome
    ensures { Meets (Call.Clear task r) t words.now (ends result words.now) }
{
    let mut u = t;
    let answer = cleared(&mut u, words, task, r);
    entries::answered(u, answer)
}
