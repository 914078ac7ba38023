// The one check of a pointer, the one look, a replica's header, room, and the words of values.
#![tactic(auto)]

ghost use Rattle.std.specs.Prelude.{ℕ, ◌≡◌, ◌+◌, ◌≤◌, ◌<◌, length};
ghost use Rattle.machine.specs.Basics.{When};
ghost use Rattle.machine.specs.Words.{value_word, descriptor, object_of, look_of, copying_of, room_of, room_for};
ghost use Rattle.machine.specs.Bounds.{Stands, Reaches, Counts};

use table::{Copying, Descriptor, Look, Marks, Operand, Primary, Replica};

// The descriptor of an object of length L with m pointer slots.
pub fn descriptor_of(len: u32, m: u32) -> u32
    requires { (len ≤ 255) × (m ≤ len) }
    ensures { result ≡ descriptor len m }
{
    256 * len + m
}

// What the pointer leads to.
#[tactic(auto, unfolding(machine::specs::Words::object_of))]
pub fn object_at(words: &[u32], s: u32, p: Primary) -> Option<Descriptor>
    ensures { (result ≡ object_of words.now s p) × Stands result s p.0 (length words.now) }
{
    let at = p.0 as usize;
    let n = words.len();
    if at < 4 || n < at {
        return None;
    }
    let d = words[at - 2];
    let len = d / 256;
    let m = d % 256;
    if s < len || len < m || n - at < len as usize {
        return None;
    }
    Some(Descriptor { len, m })
}

// What a look at the object finds.
#[tactic(auto, unfolding(machine::specs::Words::look_of))]
pub fn look_at(words: &[u32], s: u32, p: Primary) -> Look
    ensures { (result ≡ look_of words.now s p) × Reaches result s p.0 (length words.now) }
{
    let n = words.len();
    let Some(o) = object_at(words, s, p) else {
        return Look::Lost;
    };
    match words[p.0 as usize - 1] {
        0 => Look::White(o.len),
        1 => Look::Claimed,
        h => {
            let r = h as usize;
            if h < 4 || n < r || n - r < o.len as usize {
                return Look::Lost;
            }
            Look::Forwarded(Replica(h), o.len)
        }
    }
}

// What the header h of a replica of length len says.
#[tactic(auto, unfolding(machine::specs::Words::copying_of))]
pub fn copying(len: u32, h: u32) -> Copying
    ensures { (result ≡ copying_of len h) × Counts result len }
{
    if h <= len {
        return Copying::Count(h);
    }
    if h < 256 {
        return Copying::Neither;
    }
    if h - 256 < len {
        return Copying::Locked(h - 256);
    }
    Copying::Neither
}

// Whether there is room for so many words.
#[tactic(auto, unfolding(machine::specs::Words::room_for))]
pub fn room_for(on: bool, m: Marks, end: u32, need: u32) -> bool
    requires { (m.a + m.j ≤ m.top) × (m.top ≤ end) }
    ensures { (result ≡ room_for on m end need) × When result (need ≤ room_of on m end) }
{
    if on {
        return need <= m.top - m.a - m.j;
    }
    need <= end - m.a
}

// A pointer's word number. (No `From<P>`: a bound by it gives a clause a relation and not the function that `value_word` takes.)
pub trait Pointer {
    ghost number: { Self → ℕ };

    fn number(self) -> u32
        ensures { result ≡ number self };
}

impl Pointer for Primary {
    ghost number = { λ p. p.0 };

    fn number(self) -> u32 {
        self.0
    }
}

impl Pointer for Replica {
    ghost number = { λ r. r.0 };

    fn number(self) -> u32 {
        self.0
    }
}

// The word of a value, in a primary or in a replica.
pub fn word<P: Pointer>(v: Operand<P>) -> u32
    ensures { result ≡ value_word P.number v }
{
    match v {
        Operand::Plain(w) => w,
        Operand::Pointer(p) => p.number(),
    }
}
