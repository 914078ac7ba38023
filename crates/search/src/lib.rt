// The searches over the entries of the P tasks, and what is asked of all of them.
#![tactic(auto)]

ghost use Rattle.std.specs.Prelude.{◌≡◌, ◌≤◌, ℕ, Bool, length, take};
ghost use Rattle.table.specs.declared.Task.{Task};
ghost use Rattle.machine.specs.Tasks.{lowest_of};
ghost use Rattle.search.specs.Among.{Computes, seek_in, any_in, taken_in, grey_in, held_in};

use table::{Marks, Slot, Sought, Table, Task};

// The entries of the P tasks.
#[derive(Clone, Copy)]
pub struct Row<'t> {
    pub tasks: &'t [Task],
    pub ghost few: { length tasks.now ≤ 8 },
}

pub fn row_of(t: &Table) -> Row<'_>
    requires { t.now.limits.p ≤ 8 }
    ensures { result.tasks.now ≡ take t.now.limits.p t.now.tasks }
{
    Row {
        tasks: &t.tasks[..t.limits.p as usize],
    }
}

impl<'t> Row<'t> {
    // The lowest-numbered task of which the test holds: a loop left by a break with the found task, as 01 lays it down
    // (`position` has no break).
    #[tactic(auto, using(crate::proofs::Search::nobody, crate::proofs::Search::found, crate::proofs::Search::passed))]
    fn find<F: Fn(u32, &Task) -> bool>(self, test: F) -> Option<u32>
        requires { F.IsAlwaysCallable test }
        ensures { (says : ℕ → Task → Bool) → Computes F.Fn test says → result ≡ lowest_of says self.entry.tasks.now 0 }
    {
        'search: {
            for (i, e) in self.tasks.iter().enumerate() {
                if test(i as u32, e) {
                    break 'search Some(i as u32);
                }
            }
            None
        }
    }

    // The lowest-numbered task that is sought.
    pub fn seek(self, w: Sought) -> Option<u32>
        ensures { result ≡ seek_in self.entry.tasks.now w }
    {
        self.find(|i, e| tasks::task_sought(w, i, e))
    }

    // Whether there is such a task.
    pub fn any(self, w: Sought) -> bool
        ensures { result ≡ any_in self.entry.tasks.now w }
    {
        self.seek(w).is_some()
    }

    // Another task's unfinished Store is on this slot.
    pub fn slot_taken(self, me: u32, slot: Slot) -> bool
        ensures { result ≡ taken_in self.entry.tasks.now me slot }
    {
        self.find(|i, e| tasks::store_there(me, slot, i, e))
            .is_some()
    }

    // Something is on the stack, in hand, or claimed and not yet placed.
    pub fn grey(self, m: Marks, end: u32) -> bool
        ensures { result ≡ grey_in m end self.entry.tasks.now }
    {
        m.top < end || 0 < m.j || self.any(Sought::Claiming)
    }

    // A flip is asked and not yet made, or the heap is closing.
    pub fn held(self, on: bool, m: Marks, end: u32) -> bool
        ensures { result ≡ held_in on m end self.entry.tasks.now }
    {
        if on {
            !self.grey(m, end) && self.any(Sought::Busy)
        } else {
            self.any(Sought::Asking)
        }
    }
}
