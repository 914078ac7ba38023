// Look and place, each once, with what follows as data; and the slots of an object and of its replica written.
#![tactic(auto)]

ghost use Rattle.std.specs.Prelude.{◌≡◌, ◌+◌, ◌≤◌, ◌<◌, length};
ghost use Rattle.machine.specs.Basics.{When};
ghost use Rattle.machine.specs.Words.{copied_word, laid, operand_word};
ghost use Rattle.machine.specs.Bounds.{Fits, Reaches, Roomy};
ghost use Rattle.machine.specs.Deeds.{acted};
ghost use Rattle.machine.specs.Look.{go_on, look_ahead, unplaced_case, look_step_of, placed_in, place_of, place_step_of};
ghost use Rattle.look.specs.Ahead.{known};
ghost use Rattle.look.specs.Slots.{copied_of, written_in, written_of};

use table::{Deed, Look, Marks, Operand, Place, Primary, Refusal, Replica, Slot, Sought, Then};

// What follows, now that the value's word in a replica is known.
fn known(then: Then, c: Operand<Replica>) -> Place
    ensures { result ≡ known then c }
{
    match then {
        Then::ToWrite(v) => Place::StoreWrite(v),
        Then::ToStoreCopy => Place::StoreCopy(c),
        Then::ToFillCopy => Place::FillCopy(c),
        Then::ToPut(n, job) => Place::Put(n, job, c),
    }
}

// What follows, now that the replica is known.
pub fn go_on(then: Then, r: Replica) -> Place
    ensures { result ≡ go_on then r }
{
    known(then, Operand::Pointer(r))
}

// The place of a task whose value is known: only a non-nil pointer is looked at.
pub fn ahead(v: Operand<Primary>, then: Then) -> Place
    ensures { result ≡ look_ahead v then (known then) }
{
    match v {
        Operand::Plain(w) => known(then, Operand::Plain(w)),
        Operand::Pointer(Primary(0)) => go_on(then, Replica(0)),
        Operand::Pointer(p) => Place::Looking(p, then),
    }
}

// A look that found no replica: claim, wait or damage.
fn unplaced(m: Marks, words: &mut [u32], s: u32, p: Primary, then: Then, k: Look) -> Deed
    requires { Reaches k s p.0 (length words.old) }
    ensures { acted result words.new ≡ unplaced_case m words.old p then k }
{
    match k {
        Look::White(_) => {
            words[p.0 as usize - 1] = 1;
            Deed::Goes(m, Place::Placing(p, then))
        }
        Look::Claimed => Deed::Waits(Sought::Claimer(p)),
        Look::Forwarded(_, _) | Look::Lost => Deed::Fails(Refusal::Damaged),
    }
}

#[tactic(auto, unfolding(machine::specs::Look::look_step_of))]
pub fn look_step(m: Marks, words: &mut [u32], s: u32, p: Primary, then: Then) -> Deed
    ensures { acted result words.new ≡ look_step_of m words.old s p then }
{
    let seen = objects::look_at(words, s, p);
    let Look::Forwarded(r, _) = seen else {
        return unplaced(m, words, s, p, then, seen);
    };
    Deed::Goes(m, go_on(then, r))
}

// An object's two words before its slots.
pub fn lay(words: &mut [u32], at: usize, d: u32, h: u32)
    requires { at + 2 ≤ length words.old }
    ensures { words.new ≡ laid words.old at d h }
{
    words[at] = d;
    words[at + 1] = h;
}

// A replica of the object at p is claimed, with its descriptor and the count of slots to copy; the primary is forwarded,
// and pushed where there are slots to copy.
#[tactic(auto, unfolding(machine::specs::Look::place_of))]
pub fn place(
    m: Marks,
    end: u32,
    words: &mut [u32],
    p: Primary,
    len: u32,
    count: u32,
) -> Option<(Marks, Replica)>
    requires { Fits m end (length words.old) × (4 ≤ p.0) × (p.0 ≤ length words.old) × (len ≤ 255) }
    ensures { (placed_in result words.new ≡ place_of m end words.old p len count) × Roomy result end (length words.old) }
{
    let at = p.0 as usize;
    let d = words[at - 2];
    let need = if count == 0 { len + 2 } else { len + 3 };
    if !objects::room_for(true, m, end, need) {
        return None;
    }
    lay(words, m.a as usize, d, count);
    let r = Replica(m.a + 2);
    words[at - 1] = r.0;
    let a = m.a + (len + 2);
    if count == 0 {
        return Some((Marks { a, ..m }, r));
    }
    let top = m.top - 1;
    words[top as usize] = p.0;
    Some((Marks { a, top, ..m }, r))
}

#[tactic(auto, unfolding(machine::specs::Look::place_step_of))]
pub fn place_step(m: Marks, end: u32, words: &mut [u32], s: u32, p: Primary, then: Then) -> Deed
    requires { Fits m end (length words.old) × (s ≤ 255) }
    ensures { acted result words.new ≡ place_step_of m end words.old s p then }
{
    let Some(o) = objects::object_at(words, s, p) else {
        return Deed::Fails(Refusal::Damaged);
    };
    let Some((next, r)) = place(m, end, words, p, o.len, o.len) else {
        return Deed::Fails(Refusal::Exhausted);
    };
    Deed::Goes(next, go_on(then, r))
}

// The slot of the object takes a value; false where there is no such slot: no value goes with it.
#[tactic(auto, unfolding(crate::specs::Slots::written_of))]
pub fn write_slot(words: &mut [u32], s: u32, at: Slot, v: Operand<Primary>) -> bool
    ensures { (written_in result words.new ≡ written_of words.old s at (operand_word v)) × When result (at.index < s) }
{
    let Slot { object, index } = at;
    match objects::object_at(words, s, object) {
        Some(o) if index < o.len => {
            words[object.0 as usize + index as usize] = objects::word(v);
            true
        }
        _ => false,
    }
}

// The slot of the object's replica takes a value; false where there is no such slot.
#[tactic(auto, unfolding(crate::specs::Slots::copied_of))]
pub fn write_copy(words: &mut [u32], s: u32, at: Slot, c: Operand<Replica>) -> bool
    ensures { (written_in result words.new ≡ copied_of words.old s at (copied_word c)) × When result (at.index < s) }
{
    let Slot { object, index } = at;
    let Look::Forwarded(r, len) = objects::look_at(words, s, object) else {
        return false;
    };
    if len <= index {
        return false;
    }
    words[r.0 as usize + index as usize] = objects::word(c);
    true
}
