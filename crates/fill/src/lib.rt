// The actions of a Fill: the primary's slot, then the replica's.
#![tactic(auto)]

ghost use Rattle.std.specs.Prelude.{◌≡◌, ◌+◌, ◌^◌, ◌<◌, Some};
ghost use Rattle.machine.specs.Words.{slot_at};
ghost use Rattle.machine.specs.Entries.{pending_with};
ghost use Rattle.machine.specs.Deeds.{acted};
ghost use Rattle.machine.specs.Fill.{fill_write_of, fill_copy_of};

use table::{Deed, Making, Marks, Operand, Place, Primary, Refusal, Replica, Slot, Then};

// The slot that the next Fill writes.
fn next_slot(making: Making) -> Slot
    ensures { result ≡ slot_at making.at making.filled }
{
    Slot {
        object: making.at,
        index: making.filled,
    }
}

// One slot more is filled.
fn counted(making: Making) -> Making
    requires { making.filled + 1 < 2 ^ 32 }
    ensures { Some result ≡ pending_with making.at making.register making.len (making.filled + 1) }
{
    Making {
        filled: making.filled + 1,
        ..making
    }
}

// Fill: the next slot of the pending object is written; off, it counts and the Fill ends.
#[tactic(auto, unfolding(machine::specs::Fill::fill_write_of, look::specs::Slots::written_of))]
pub fn fill_write(
    on: bool,
    m: Marks,
    words: &mut [u32],
    s: u32,
    pending: Option<Making>,
    v: Operand<Primary>,
) -> Deed
    ensures { acted result words.new ≡ fill_write_of on m words.old s pending v }
{
    let Some(making) = pending else {
        return Deed::Fails(Refusal::Damaged);
    };
    if !look::write_slot(words, s, next_slot(making), v) {
        return Deed::Fails(Refusal::Damaged);
    }
    if on {
        return Deed::Goes(m, look::ahead(v, Then::ToFillCopy));
    }
    Deed::EndsWith(m, Some(counted(making)))
}

// Fill: the slot of the replica is written, and counted; then pay k.
#[tactic(auto, unfolding(machine::specs::Fill::fill_copy_of, look::specs::Slots::copied_of))]
pub fn fill_copy(
    m: Marks,
    words: &mut [u32],
    s: u32,
    k: u32,
    pending: Option<Making>,
    c: Operand<Replica>,
) -> Deed
    ensures { acted result words.new ≡ fill_copy_of m words.old s k pending c }
{
    let Some(making) = pending else {
        return Deed::Fails(Refusal::Damaged);
    };
    if !look::write_copy(words, s, next_slot(making), c) {
        return Deed::Fails(Refusal::Damaged);
    }
    Deed::GoesWith(m, Some(counted(making)), Place::Take(k))
}
