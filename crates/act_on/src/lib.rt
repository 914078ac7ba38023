// The step of a task while collecting, from its entry and the words alone.
#![tactic(auto)]

ghost use Rattle.std.specs.Prelude.{◌≡◌, length};
ghost use Rattle.machine.specs.Bounds.{Sound};
ghost use Rattle.new.specs.Acts.{came};
ghost use Rattle.act_on.specs.On.{on_act};

use new::Act;
use table::{Limits, Place, Refusal, Table, Task};

// Collecting: each item is one step, each place of a task an arm with what it holds. (The place is an enum, as 01 lays it down. An
// action is given the few numbers that it uses: a struct of marks, words and longest object would be made for one call. The table
// is only read: see `new_off` for why no type holds it and the words.)
#[tactic(auto, unfolding(crate::specs::On::on_act))]
pub fn on_act(t: &Table, words: &mut [u32], e: &Task) -> Act
    requires { Sound t.now.limits t.now.upper t.now.marks (length words.old) }
    ensures { came result words.new ≡ on_act t.now words.old e.now e.now.place }
{
    let Limits { s, k, h, .. } = t.limits;
    let m = t.marks;
    let end = gates::end_of(t.upper, h);
    Act::Does(match e.place {
        Place::Idle => return new::failing(Refusal::OutOfTurn),
        Place::New(w) => return new::new_on(t, words, w),
        Place::Asked(_) => return new::failing(Refusal::Damaged),
        Place::FillWrite(v) => fill::fill_write(true, m, words, s, e.pending, v),
        Place::FillCopy(c) => fill::fill_copy(m, words, s, k, e.pending, c),
        Place::StoreWrite(v) => store::store_write(true, m, words, s, e.storing, v),
        Place::Meet(v) => store::meet(m, words, s, k, e.storing, v),
        Place::StoreCopy(c) => store::store_copy(m, words, s, k, e.storing, c),
        Place::Take(n) if m.top < end => pay::take(m, words, s, n),
        Place::Take(_) => return Act::Drained,
        Place::Read(n, job) => pay::read(m, words, s, n, job),
        Place::Put(n, job, c) => copy::put(m, words, s, n, job, c),
        Place::Release(n, job) => copy::release(m, words, s, n, job),
        Place::Looking(p, then) => look::look_step(m, words, s, p, then),
        Place::Placing(p, then) => look::place_step(m, end, words, s, p, then),
    })
}
