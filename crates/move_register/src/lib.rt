// Move, from a register to a register; it completes at once.
#![tactic(auto)]

ghost use Rattle.std.specs.Prelude.{◌≡◌, OnErr};
ghost use Rattle.machine.specs.Complete.{move_of};
ghost use Rattle.machine.specs.Entries.{ends};
ghost use Rattle.machine.specs.Call.{Call};
ghost use Rattle.machine.specs.Calls.{Meets};
ghost use Rattle.entries.specs.Answered.{answered};

use table::{Answer, Outcome, Refusal, Table};

// Register `to` gets what register `from` holds.
#[tactic(auto, using(opening::proofs::Opens::by_opening), unfolding(machine::specs::Complete::move_of, machine::specs::Entries::with_register, machine::specs::Entries::with_task))]
fn moved(t: &mut Table, words: &[u32], task: u32, to: u32, from: u32) -> Result<Answer, Refusal>
    ensures given { answered t.new result ≡ move_of t.old words.now task to from }
    ensures unchanged { OnErr result (t.new ≡ t.old) }
{
    let mut e = opening::turn(t, words.len(), task, to, from)?;
    e.regs[to as usize] = e.regs[from as usize];
    t.tasks[task as usize] = e;
    Ok(Answer::Done)
}

pub fn move_register(t: Table, words: &[u32], task: u32, to: u32, from: u32) -> Outcome
    ensures { Meets (Call.Move task to from) t words.now (ends result words.now) }
{
    let mut u = t;
    let answer = moved(&mut u, words, task, to, from);
    entries::answered(u, answer)
}
