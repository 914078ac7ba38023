// The actions of a Store behind the look at the old pointer: the primary's slot, meet, the replica's slot.
#![tactic(auto)]

ghost use Rattle.std.specs.Prelude.{◌≡◌};
ghost use Rattle.machine.specs.Deeds.{acted};
ghost use Rattle.machine.specs.Store.{store_write_of, unmet_case, meet_of, store_copy_of};

use table::{
    Copying, Deed, Look, Marks, Operand, Place, Primary, Refusal, Replica, Slot, Sought, Then,
};

// Store: the primary slot is written; off, the Store ends.
#[tactic(auto, unfolding(machine::specs::Store::store_write_of, look::specs::Slots::written_of))]
pub fn store_write(
    on: bool,
    m: Marks,
    words: &mut [u32],
    s: u32,
    storing: Option<Slot>,
    v: Operand<Primary>,
) -> Deed
    ensures { acted result words.new ≡ store_write_of on m words.old s storing v }
{
    let Some(at) = storing else {
        return Deed::Fails(Refusal::Damaged);
    };
    if !look::write_slot(words, s, at, v) {
        return Deed::Fails(Refusal::Damaged);
    }
    if on {
        return Deed::Goes(m, Place::Meet(v));
    }
    Deed::Ends(m)
}

// A Store's object has no replica: it is white, claimed, or nothing that can be.
fn unmet(m: Marks, k: u32, x: Primary, seen: Look) -> Deed
    ensures { result ≡ unmet_case m k x seen }
{
    match seen {
        Look::White(_) => Deed::Goes(m, Place::Take(k)),
        Look::Claimed => Deed::Waits(Sought::Claimer(x)),
        Look::Forwarded(_, _) | Look::Lost => Deed::Fails(Refusal::Damaged),
    }
}

// Store: meet the copier.
#[tactic(auto, unfolding(machine::specs::Store::meet_of))]
pub fn meet(
    m: Marks,
    words: &[u32],
    s: u32,
    k: u32,
    storing: Option<Slot>,
    v: Operand<Primary>,
) -> Deed
    ensures { acted result words.now ≡ meet_of m words.now s k storing v }
{
    let Some(at) = storing else {
        return Deed::Fails(Refusal::Damaged);
    };
    let seen = objects::look_at(words, s, at.object);
    let Look::Forwarded(r, len) = seen else {
        return unmet(m, k, at.object, seen);
    };
    match objects::copying(len, words[r.0 as usize - 1]) {
        Copying::Locked(i) if i == at.index => Deed::Waits(Sought::Holder(at)),
        Copying::Count(_) | Copying::Locked(_) => Deed::Goes(m, look::ahead(v, Then::ToStoreCopy)),
        Copying::Neither => Deed::Fails(Refusal::Damaged),
    }
}

// Store: the slot of the replica is written; then pay k.
#[tactic(auto, unfolding(machine::specs::Store::store_copy_of, look::specs::Slots::copied_of))]
pub fn store_copy(
    m: Marks,
    words: &mut [u32],
    s: u32,
    k: u32,
    storing: Option<Slot>,
    c: Operand<Replica>,
) -> Deed
    ensures { acted result words.new ≡ store_copy_of m words.old s k storing c }
{
    let Some(at) = storing else {
        return Deed::Fails(Refusal::Damaged);
    };
    if !look::write_copy(words, s, at, c) {
        return Deed::Fails(Refusal::Damaged);
    }
    Deed::Goes(m, Place::Take(k))
}
