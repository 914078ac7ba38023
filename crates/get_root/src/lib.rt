// From a shared root, to a register: the call completes at once.
#![tactic(auto)]

ghost use Rattle.std.specs.Prelude.{◌≡◌, OnErr};
ghost use Rattle.machine.specs.Complete.{get_root_of};
ghost use Rattle.machine.specs.Entries.{ends};
ghost use Rattle.machine.specs.Call.{Call};
ghost use Rattle.machine.specs.Calls.{Meets};
ghost use Rattle.entries.specs.Answered.{answered};

use table::{Answer, Outcome, Refusal, Table};

// A register gets what a shared root holds.
#[tactic(auto, using(opening::proofs::Opens::by_opening), unfolding(machine::specs::Complete::get_root_of, machine::specs::Entries::with_register, machine::specs::Entries::with_task))]
fn got(t: &mut Table, words: &[u32], task: u32, r: u32, root: u32) -> Result<Answer, Refusal>
    ensures given { answered t.new result ≡ get_root_of t.old words.now task r root }
    ensures unchanged { OnErr result (t.new ≡ t.old) }
{
    let mut e = opening::turn(t, words.len(), task, r, root)?;
    e.regs[r as usize] = t.roots[root as usize];
    t.tasks[task as usize] = e;
    Ok(Answer::Done)
}

pub fn get_root(t: Table, words: &[u32], task: u32, r: u32, root: u32) -> Outcome
    ensures { Meets (Call.Get task r root) t words.now (ends result words.now) }
{
    let mut u = t;
    let answer = got(&mut u, words, task, r, root);
    entries::answered(u, answer)
}
