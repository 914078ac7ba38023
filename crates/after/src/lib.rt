// What an act leaves of its task's entry and of the marks: of most acts that is all, and the table need not go whole.
#![tactic(auto)]

ghost use Rattle.std.specs.Prelude.{◌≡◌, Some};
ghost use Rattle.table.specs.declared.Answer.TheVariants.{Moved};
ghost use Rattle.after.specs.Left.{quiet_of, after, ending_of, after_deed, after_of};

use new::Act;
use table::{Answer, Deed, Marks, Task};

#[derive(Drop)]
pub struct After {
    pub marks: Marks,
    pub entry: Task,
    pub answer: Answer,
}

// The collector is on and the stack and the tasks' hands are empty: the end of an instruction may bring the switch-over.
#[tactic(auto, unfolding(crate::specs::Left::quiet_of))]
fn quiet(on: bool, m: Marks, end: u32) -> bool
    ensures { result ≡ quiet_of on m end }
{
    on && end <= m.top && m.j == 0
}

// An instruction that ends with this entry.
fn ending(on: bool, marks: Marks, end: u32, entry: Task) -> Option<After>
    ensures { result ≡ ending_of on marks end entry }
{
    if quiet(on, marks, end) {
        return None;
    }
    Some(After {
        marks,
        entry,
        answer: Answer::Done,
    })
}

fn moving(marks: Marks, entry: Task) -> Option<After>
    ensures { result ≡ Some (after marks entry Moved) }
{
    Some(After {
        marks,
        entry,
        answer: Answer::Moved,
    })
}

#[tactic(auto, unfolding(crate::specs::Left::after_deed))]
fn after_deed(on: bool, end: u32, e: &Task, d: Deed) -> Option<After>
    ensures { result ≡ after_deed on end e.now d }
{
    match d {
        Deed::Goes(m, place) => moving(m, Task { place, ..*e }),
        Deed::GoesWith(m, pending, place) => moving(
            m,
            Task {
                pending,
                place,
                ..*e
            },
        ),
        Deed::Ends(m) => ending(on, m, end, switch::ended_entry(e, e.pending)),
        Deed::EndsWith(m, pending) => ending(on, m, end, switch::ended_entry(e, pending)),
        Deed::Waits(_) | Deed::Fails(_) => None,
    }
}

// What an act leaves of entry e, in a space that ends at `end`; none where the table is needed whole.
#[tactic(auto, unfolding(crate::specs::Left::after_of))]
pub fn after_act(on: bool, end: u32, e: &Task, a: Act) -> Option<After>
    ensures { result ≡ after_of on end e.now a }
{
    match a {
        Act::Does(d) => after_deed(on, end, e, d),
        Act::Asks(_) | Act::Denied | Act::Drained => None,
    }
}
