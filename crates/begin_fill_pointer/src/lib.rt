// Begin of Fill with a pointer: no word is written, and the task's first place is recorded.
#![tactic(auto)]

ghost use Rattle.std.specs.Prelude.{◌≡◌, OnErr};
ghost use Rattle.machine.specs.Entries.{ends};
ghost use Rattle.machine.specs.Begin.{begin_fill_pointer_of};
ghost use Rattle.machine.specs.Call.{Call};
ghost use Rattle.machine.specs.Calls.{Meets};
ghost use Rattle.entries.specs.Answered.{answered};

use table::{Answer, Operand, Outcome, Refusal, Table};

#[tactic(auto, using(opening::proofs::Opens::by_opening, opening::proofs::Opens::one_register), unfolding(machine::specs::Begin::begin_fill_pointer_of, machine::specs::Begin::fill_from))]
fn filled(t: &mut Table, words: &[u32], task: u32, r: u32) -> Result<Answer, Refusal>
    ensures given { answered t.new result ≡ begin_fill_pointer_of t.old words.now task r }
    ensures unchanged { OnErr result (t.new ≡ t.old) }
{
    let e = opening::turn(t, words.len(), task, r, r)?;
    begin_fill::recorded(
        t,
        words,
        task,
        e.pending,
        Operand::Pointer(e.regs[r as usize]),
    )
}

pub fn begin_fill_pointer(t: Table, words: &[u32], task: u32, r: u32) -> Outcome
    ensures { Meets (Call.FillPointer task r) t words.now (ends result words.now) }
{
    let mut u = t;
    let answer = filled(&mut u, words, task, r);
    entries::answered(u, answer)
}
