// What a task holds, and whether it is sought.
#![tactic(auto)]

ghost use Rattle.std.specs.Prelude.{◌≡◌};
ghost use Rattle.machine.specs.Tasks.{holding_of, idle_of, sought_task, store_there};

use table::{Holding, Place, Slot, Sought, Task, Then};

// What a task at this place holds.
#[tactic(auto, unfolding(machine::specs::Tasks::holding_of))]
pub fn holding(place: Place) -> Holding
    ensures { result ≡ holding_of place }
{
    match place {
        Place::Idle => Holding::Rests,
        Place::Asked(_) => Holding::Asks,
        Place::Read(_, job) | Place::Put(_, job, _) | Place::Release(_, job) => Holding::Job(job),
        Place::Looking(_, Then::ToPut(_, job)) => Holding::Job(job),
        Place::Placing(p, Then::ToPut(_, job)) => Holding::Both(p, job),
        Place::Placing(p, _) => Holding::Claim(p),
        _ => Holding::Free,
    }
}

pub fn idle(place: Place) -> bool
    ensures { result ≡ idle_of (holding_of place) }
{
    matches!(holding(place), Holding::Rests)
}

// Task i, whose entry is e, is sought.
#[tactic(auto, unfolding(machine::specs::Tasks::sought_of))]
pub fn task_sought(w: Sought, i: u32, e: &Task) -> bool
    ensures { result ≡ sought_task w i e.now }
{
    let h = holding(e.place);
    match w {
        Sought::Claimer(q) => matches!(h, Holding::Claim(p) | Holding::Both(p, _) if p == q),
        Sought::Holder(slot) =>
            matches!(h, Holding::Job(job) | Holding::Both(_, job) if job == slot),
        Sought::Worker(me) => i != me
            && matches!(h, Holding::Job(_) | Holding::Claim(_) | Holding::Both(_, _)),
        Sought::Blocker(me) => i != me && !matches!(h, Holding::Rests | Holding::Asks),
        Sought::Claiming => matches!(h, Holding::Claim(_) | Holding::Both(_, _)),
        Sought::Asking => matches!(h, Holding::Asks),
        Sought::Busy => !matches!(h, Holding::Rests),
    }
}

// Task i is another than me, and its unfinished Store is on this slot.
pub fn store_there(me: u32, slot: Slot, i: u32, e: &Task) -> bool
    ensures { result ≡ store_there me slot.object slot.index i e.now }
{
    i != me && e.storing == Some(slot)
}
