// The actions of a payment that copy: put, release.
#![tactic(auto)]

ghost use Rattle.std.specs.Prelude.{◌≡◌, ◌≤◌, length};
ghost use Rattle.machine.specs.Bounds.{Fits};
ghost use Rattle.machine.specs.Deeds.{acted};
ghost use Rattle.machine.specs.Pay.{put_of, paid as paid_of, release_of};

use table::{Deed, Look, Marks, Operand, Place, Refusal, Replica, Slot};

// Pay: the replica's slot is written.
#[tactic(auto, unfolding(machine::specs::Pay::put_of, look::specs::Slots::copied_of))]
pub fn put(m: Marks, words: &mut [u32], s: u32, n: u32, job: Slot, c: Operand<Replica>) -> Deed
    ensures { acted result words.new ≡ put_of m words.old s n job.object job.index c }
{
    if look::write_copy(words, s, job, c) {
        return Deed::Goes(m, Place::Release(n, job));
    }
    Deed::Fails(Refusal::Damaged)
}

// The last copy ends the payment.
fn paid(m: Marks, n: u32) -> Deed
    requires { 1 ≤ n }
    ensures { result ≡ paid_of m n }
{
    if n == 1 {
        return Deed::Ends(m);
    }
    Deed::Goes(m, Place::Take(n - 1))
}

// Pay: the slot is released, and the object pushed back if slots are left.
#[tactic(auto, unfolding(machine::specs::Pay::release_of))]
pub fn release(m: Marks, words: &mut [u32], s: u32, n: u32, job: Slot) -> Deed
    requires { Fits m m.top (length words.old) }
    ensures { acted result words.new ≡ release_of m words.old s n job.object job.index }
{
    let Slot { object, index } = job;
    let Look::Forwarded(r, len) = objects::look_at(words, s, object) else {
        return Deed::Fails(Refusal::Damaged);
    };
    if len <= index || m.j == 0 || n == 0 {
        return Deed::Fails(Refusal::Damaged);
    }
    words[r.0 as usize - 1] = index;
    let released = Marks {
        j: m.j - 1,
        copies: m.copies + 1,
        ..m
    };
    if index == 0 {
        return paid(released, n);
    }
    let top = m.top - 1;
    words[top as usize] = object.0;
    paid(Marks { top, ..released }, n)
}
