// The steps of a New that is not yet claimed, off and collecting; and what a step comes to, as data.
#![tactic(auto)]

ghost use Rattle.std.specs.Prelude.{◌≡◌, ◌≤◌, length, Some};
ghost use Rattle.table.specs.declared.Deed.TheVariants.{Fails};
ghost use Rattle.machine.specs.Bounds.{Sound};
ghost use Rattle.machine.specs.New.{made};
ghost use Rattle.new.specs.declared.Act.TheVariants.{Does};
ghost use Rattle.new.specs.Acts.{came, new_off_act, new_on_act};

use table::{Deed, Making, Marks, Place, Primary, Refusal, Table, Wanted};

// What a step comes to, found from the task's own entry and the words alone: a deed, or what needs the table.
#[derive(Clone, Copy)]
pub enum Act {
    Does(Deed),
    // A New without room while off: it asks for a flip.
    Asks(Wanted),
    // A New without room while collecting: refusal 9.
    Denied,
    // A take that finds the stack empty.
    Drained,
}

// The act of a step that is refused.
pub fn failing(x: Refusal) -> Act
    ensures { result ≡ Does (Fails x) }
{
    Act::Does(Deed::Fails(x))
}

// The object claimed at A, in no register yet.
fn made(m: Marks, w: Wanted) -> Making
    requires { m.a ≤ 16382 }
    ensures { Some result ≡ made m w.register w.len }
{
    Making {
        at: Primary(m.a + 2),
        register: w.register,
        len: w.len,
        filled: 0,
    }
}

// New while the collector is off: it claims, or asks for a flip. (The table is only read: a type of it and the words would
// trade this `requires` for an `ensures` that it still holds the same words.)
#[tactic(auto, unfolding(crate::specs::Acts::new_off_act))]
pub fn new_off(t: &Table, words: &mut [u32], w: Wanted) -> Act
    requires { Sound t.now.limits t.now.upper t.now.marks (length words.old) }
    ensures { came result words.new ≡ new_off_act t.now words.old w }
{
    let m = t.marks;
    if !gates::new_ok(t.limits.s, w) {
        return failing(Refusal::Damaged);
    }
    let end = gates::end_of(t.upper, t.limits.h);
    if !objects::room_for(false, m, end, w.len + 2) {
        return Act::Asks(w);
    }
    look::lay(words, m.a as usize, objects::descriptor_of(w.len, w.m), 0);
    let a = m.a + (w.len + 2);
    Act::Does(Deed::EndsWith(Marks { a, ..m }, Some(made(m, w))))
}

// New while collecting: it claims twice, primary first, and then pays 2k; with less room it is refused.
#[tactic(auto, unfolding(crate::specs::Acts::new_on_act))]
pub fn new_on(t: &Table, words: &mut [u32], w: Wanted) -> Act
    requires { Sound t.now.limits t.now.upper t.now.marks (length words.old) }
    ensures { came result words.new ≡ new_on_act t.now words.old w }
{
    let m = t.marks;
    if !gates::new_ok(t.limits.s, w) {
        return failing(Refusal::Damaged);
    }
    let end = gates::end_of(t.upper, t.limits.h);
    if !objects::room_for(true, m, end, 2 * (w.len + 2)) {
        return Act::Denied;
    }
    let d = objects::descriptor_of(w.len, w.m);
    look::lay(words, m.a as usize, d, m.a + (w.len + 4));
    look::lay(words, (m.a + (w.len + 2)) as usize, d, 0);
    let a = m.a + 2 * (w.len + 2);
    let pay = Place::Take(2 * t.limits.k);
    Act::Does(Deed::GoesWith(Marks { a, ..m }, Some(made(m, w)), pay))
}
