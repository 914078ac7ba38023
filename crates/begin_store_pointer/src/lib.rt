// Begin of Store of a pointer: no word is written, and the task's first place is recorded.
#![tactic(auto)]

ghost use Rattle.std.specs.Prelude.{◌≡◌, OnErr};
ghost use Rattle.machine.specs.Entries.{ends};
ghost use Rattle.machine.specs.Begin.{begin_store_pointer_of};
ghost use Rattle.machine.specs.Call.{Call};
ghost use Rattle.machine.specs.Calls.{Meets};
ghost use Rattle.entries.specs.Answered.{answered};

use table::{Answer, Operand, Outcome, Refusal, Slot, Table};

#[tactic(auto, using(opening::proofs::Opens::by_opening), unfolding(machine::specs::Begin::begin_store_pointer_of, machine::specs::Begin::store_from))]
fn stored(
    t: &mut Table,
    words: &[u32],
    task: u32,
    object: u32,
    slot: u32,
    r: u32,
) -> Result<Answer, Refusal>
    ensures given { answered t.new result ≡ begin_store_pointer_of t.old words.now task object slot r }
    ensures unchanged { OnErr result (t.new ≡ t.old) }
{
    let e = opening::turn(t, words.len(), task, object, r)?;
    let at = Slot {
        object: e.regs[object as usize],
        index: slot,
    };
    begin_store::recorded(t, words, task, at, Operand::Pointer(e.regs[r as usize]))
}

pub fn begin_store_pointer(
    t: Table,
    words: &[u32],
    task: u32,
    object: u32,
    slot: u32,
    r: u32,
) -> Outcome
    ensures { Meets (Call.StorePointer task object slot r) t words.now (ends result words.now) }
{
    let mut u = t;
    let answer = stored(&mut u, words, task, object, slot, r);
    entries::answered(u, answer)
}
