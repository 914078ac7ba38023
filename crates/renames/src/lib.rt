// Pointers made new through their replicas: the shared roots, and the pending pointers and registers of the tasks.
#![tactic(auto)]

ghost use Rattle.std.specs.Prelude.{◌≡◌, ◌≤◌, take};
ghost use Rattle.machine.specs.Basics.{all_of, first_of};
ghost use Rattle.machine.specs.Switch.{new_name, has_replica, new_entry, entry_has_replicas};
ghost use Rattle.renames.specs.Renamed.{Remade};

use table::{Look, Making, Primary, Task};

// What a pointer becomes; None: it has no replica.
#[tactic(auto, unfolding(machine::specs::Switch::has_replica, machine::specs::Switch::new_name))]
fn new_name(words: &[u32], s: u32, p: Primary) -> Option<Primary>
    ensures { Remade result (has_replica words.now s p) (new_name words.now s p) }
{
    if p == Primary(0) {
        return Some(p);
    }
    let Look::Forwarded(r, _) = objects::look_at(words, s, p) else {
        return None;
    };
    Some(Primary(r.0))
}

// Eight pointers made new: the shared roots, or the registers of a task.
pub fn pointers(words: &[u32], s: u32, olds: [Primary; 8]) -> Option<[Primary; 8]>
    ensures { Remade result (all_of (has_replica words.now s) (take 8 olds)) (first_of 8 (new_name words.now s) olds) }
{
    let mut qs = olds;
    for q in qs.iter_mut() {
        *q = new_name(words, s, *q)?;
    }
    Some(qs)
}

// A task with its pending pointer and its registers made new.
#[tactic(auto, using(crate::proofs::Rows::entry_good, crate::proofs::Rows::entry_lost, crate::proofs::Rows::entry_gone, crate::proofs::Rows::entry_new), unfolding(machine::specs::Switch::new_pending, machine::specs::Switch::pending_has_replica))]
fn new_entry(words: &[u32], s: u32, e: Task) -> Option<Task>
    ensures { Remade result (entry_has_replicas words.now s e) (new_entry words.now s e) }
{
    let pending = match e.pending {
        Some(d) => Some(Making {
            at: new_name(words, s, d.at)?,
            ..d
        }),
        None => None,
    };
    let regs = pointers(words, s, e.regs)?;
    Some(Task { regs, pending, ..e })
}

// The first p tasks. (The whole array goes and comes: the entries behind them stay in it.)
pub fn all_entries(words: &[u32], s: u32, p: usize, tasks: [Task; 8]) -> Option<[Task; 8]>
    requires { p ≤ 8 }
    ensures { Remade result (all_of (entry_has_replicas words.now s) (take p tasks)) (first_of p (new_entry words.now s) tasks) }
{
    let mut u = tasks;
    for e in u[..p].iter_mut() {
        *e = new_entry(words, s, *e)?;
    }
    Some(u)
}
