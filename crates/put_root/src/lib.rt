// To a shared root, from a register: the call completes at once.
#![tactic(auto)]

ghost use Rattle.std.specs.Prelude.{◌≡◌, OnErr};
ghost use Rattle.machine.specs.Complete.{put_root_of};
ghost use Rattle.machine.specs.Entries.{ends};
ghost use Rattle.machine.specs.Call.{Call};
ghost use Rattle.machine.specs.Calls.{Meets};
ghost use Rattle.entries.specs.Answered.{answered};

use table::{Answer, Outcome, Refusal, Table};

// A shared root gets what a register holds.
#[tactic(auto, using(opening::proofs::Opens::by_opening), unfolding(machine::specs::Complete::put_root_of, machine::specs::Entries::with_root))]
fn put(t: &mut Table, words: &[u32], task: u32, root: u32, r: u32) -> Result<Answer, Refusal>
    ensures given { answered t.new result ≡ put_root_of t.old words.now task root r }
    ensures unchanged { OnErr result (t.new ≡ t.old) }
{
    let e = opening::turn(t, words.len(), task, root, r)?;
    t.roots[root as usize] = e.regs[r as usize];
    Ok(Answer::Done)
}

pub fn put_root(t: Table, words: &[u32], task: u32, root: u32, r: u32) -> Outcome
    ensures { Meets (Call.Put task root r) t words.now (ends result words.now) }
{
    let mut u = t;
    let answer = put(&mut u, words, task, root, r);
    entries::answered(u, answer)
}
