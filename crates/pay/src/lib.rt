// The actions of a payment that find what to copy: take, read.
#![tactic(auto)]

ghost use Rattle.std.specs.Prelude.{◌≡◌, ◌≤◌, ◌<◌, length};
ghost use Rattle.machine.specs.Bounds.{Fits};
ghost use Rattle.machine.specs.Deeds.{acted};
ghost use Rattle.machine.specs.Pay.{take_of, read_of};

use table::{Copying, Deed, Look, Marks, Operand, Place, Primary, Refusal, Slot, Then};

// Pay: the object on top of the stack is popped, and its slot count-1 locked.
#[tactic(auto, unfolding(machine::specs::Pay::take_of))]
pub fn take(m: Marks, words: &mut [u32], s: u32, n: u32) -> Deed
    requires { Fits m m.top (length words.old) × (m.top < length words.old) × (s ≤ 255) }
    ensures { acted result words.new ≡ take_of m words.old s n }
{
    let p = Primary(words[m.top as usize]);
    let Look::Forwarded(r, len) = objects::look_at(words, s, p) else {
        return Deed::Fails(Refusal::Damaged);
    };
    let at = r.0 as usize;
    match objects::copying(len, words[at - 1]) {
        Copying::Count(count) if 0 < count => {
            let job = Slot {
                object: p,
                index: count - 1,
            };
            words[at - 1] = 256 + job.index;
            Deed::Goes(
                Marks {
                    top: m.top + 1,
                    j: m.j + 1,
                    ..m
                },
                Place::Read(n, job),
            )
        }
        _ => Deed::Fails(Refusal::Damaged),
    }
}

// Pay: the primary slot is read. (The choice of a kind stands in `slot_at` of crates/load too, which says why.)
#[tactic(auto, unfolding(machine::specs::Pay::read_of))]
pub fn read(m: Marks, words: &[u32], s: u32, n: u32, job: Slot) -> Deed
    ensures { acted result words.now ≡ read_of m words.now s n job.object job.index }
{
    let Slot { object, index } = job;
    match objects::object_at(words, s, object) {
        Some(o) if index < o.len => {
            let w = words[object.0 as usize + index as usize];
            let v = if index < o.m {
                Operand::Pointer(Primary(w))
            } else {
                Operand::Plain(w)
            };
            Deed::Goes(m, look::ahead(v, Then::ToPut(n, job)))
        }
        _ => Deed::Fails(Refusal::Damaged),
    }
}
