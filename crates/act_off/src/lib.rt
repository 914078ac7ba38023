// The step of a task while the collector is off, from its entry and the words alone.
#![tactic(auto)]

ghost use Rattle.std.specs.Prelude.{◌≡◌, length};
ghost use Rattle.machine.specs.Bounds.{Sound};
ghost use Rattle.new.specs.Acts.{came};
ghost use Rattle.act_off.specs.Off.{off_act};

use new::Act;
use table::{Place, Refusal, Table, Task};

// Collector off: New, Fill and Store; no other place can be. (The place is an enum, as 01 lays it down, and each arm has other
// parameters. The table is only read: see `new_off` for why no type holds it and the words.)
#[tactic(auto, unfolding(crate::specs::Off::off_act))]
pub fn off_act(t: &Table, words: &mut [u32], e: &Task) -> Act
    requires { Sound t.now.limits t.now.upper t.now.marks (length words.old) }
    ensures { came result words.new ≡ off_act t.now words.old e.now e.now.place }
{
    let s = t.limits.s;
    let m = t.marks;
    match e.place {
        Place::Idle => new::failing(Refusal::OutOfTurn),
        Place::New(w) | Place::Asked(w) => new::new_off(t, words, w),
        Place::FillWrite(v) => Act::Does(fill::fill_write(false, m, words, s, e.pending, v)),
        Place::StoreWrite(v) => Act::Does(store::store_write(false, m, words, s, e.storing, v)),
        _ => new::failing(Refusal::Damaged),
    }
}
