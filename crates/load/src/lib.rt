// Load: a pointer slot goes to a register, a plain slot is answered.
#![tactic(auto)]

ghost use Rattle.std.specs.Prelude.{◌≡◌, OnErr};
ghost use Rattle.machine.specs.Complete.{load_of};
ghost use Rattle.machine.specs.Entries.{ends};
ghost use Rattle.machine.specs.Call.{Call};
ghost use Rattle.machine.specs.Calls.{Meets};
ghost use Rattle.entries.specs.Answered.{answered};
ghost use Rattle.load.specs.Slot.{loaded_of};

use table::{Answer, Operand, Outcome, Primary, Refusal, Table};

// What a slot of the object at p holds. (The choice of a kind stands in `read` of crates/pay too: a function for it would need a
// definition of its own and four parameters for its two arms.)
#[tactic(auto, unfolding(crate::specs::Slot::loaded_of))]
fn slot_at(words: &[u32], s: u32, p: Primary, slot: u32) -> Result<Operand<Primary>, Refusal>
    ensures { result ≡ loaded_of words.now s p slot }
{
    if p == Primary(0) {
        return Err(Refusal::NilObject);
    }
    let o = objects::object_at(words, s, p).ok_or(Refusal::Damaged)?;
    if o.len <= slot {
        return Err(Refusal::NoSlot);
    }
    let w = words[p.0 as usize + slot as usize];
    Ok(if slot < o.m {
        Operand::Pointer(Primary(w))
    } else {
        Operand::Plain(w)
    })
}

// A slot of the object in register `from`; a pointer goes to register `to`.
#[tactic(auto, using(opening::proofs::Opens::by_opening, crate::proofs::Given::load_given), unfolding(machine::specs::Complete::load_of, machine::specs::Entries::with_register, machine::specs::Entries::with_task))]
fn loaded(
    t: &mut Table,
    words: &[u32],
    task: u32,
    to: u32,
    from: u32,
    slot: u32,
) -> Result<Answer, Refusal>
    ensures given { answered t.new result ≡ load_of t.old words.now task to from slot }
    ensures unchanged { OnErr result (t.new ≡ t.old) }
{
    let mut e = opening::turn(t, words.len(), task, to, from)?;
    match slot_at(words, t.limits.s, e.regs[from as usize], slot)? {
        Operand::Pointer(q) => {
            e.regs[to as usize] = q;
            t.tasks[task as usize] = e;
            Ok(Answer::Done)
        }
        Operand::Plain(w) => Ok(Answer::Value(w)),
    }
}

pub fn load(t: Table, words: &[u32], task: u32, to: u32, from: u32, slot: u32) -> Outcome
    ensures { Meets (Call.Load task to from slot) t words.now (ends result words.now) }
{
    let mut u = t;
    let answer = loaded(&mut u, words, task, to, from, slot);
    entries::answered(u, answer)
}
