// A flip's visits: the pending objects, the roots and the registers, each white object placed.
#![tactic(auto)]

ghost use Rattle.std.specs.Prelude.{◌≡◌, ◌≤◌, length};
ghost use Rattle.machine.specs.Bounds.{Fits};

use table::{Look, Making, Marks, Primary, Refusal, Task};

// The space that a flip fills: its marks and its end in the lent words, and how many slots an object may have. Whoever makes
// one shows that the free part lies in the words; each visit keeps that.
#[derive(Drop)]
pub struct Space<'w> {
    pub words: &'w mut [u32],
    pub s: u32,
    pub end: u32,
    pub marks: Marks,
    pub ghost fits: { Fits marks end (length words.now) },
    pub ghost short: { s ≤ 255 },
}

impl<'w> Space<'w> {
    ghost use Rattle.machine.specs.Flip.{placing, visit_of, visit_pending_of, pass_of, pending_pass, register_pass};
    ghost use Rattle.visits.specs.Visits.{Leaves};

    // A replica with so many slots to copy.
    fn place(&mut self, p: Primary, len: u32, count: u32) -> Result<(), Refusal>
        requires { (4 ≤ p.0) × (p.0 ≤ length self.old.words.now) × (len ≤ 255) }
        ensures { Leaves result self.old self.new (placing self.old.end p len count) }
    {
        let Some((marks, _)) = look::place(self.marks, self.end, self.words, p, len, count) else {
            return Err(Refusal::Exhausted);
        };
        self.marks = marks;
        Ok(())
    }

    // A root or a register: a non-nil white object is placed.
    #[tactic(auto, unfolding(machine::specs::Flip::visit_of))]
    fn visit(&mut self, p: Primary) -> Result<(), Refusal>
        ensures { Leaves result self.old self.new (visit_of self.old.end self.old.s p) }
    {
        if p == Primary(0) {
            return Ok(());
        }
        // (Of the field itself, lent as `&`, the proof would know no more than its length.)
        let words = &mut *self.words;
        match objects::look_at(words, self.s, p) {
            Look::White(len) => self.place(p, len, len),
            Look::Forwarded(_, _) => Ok(()),
            Look::Claimed | Look::Lost => Err(Refusal::Damaged),
        }
    }

    // A pending object: its replica has the filled slots to copy.
    #[tactic(auto, unfolding(machine::specs::Flip::visit_pending_of))]
    fn visit_pending(&mut self, pending: Option<Making>) -> Result<(), Refusal>
        ensures { Leaves result self.old self.new (visit_pending_of self.old.end self.old.s pending) }
    {
        let Some(d) = pending else {
            return Ok(());
        };
        let words = &mut *self.words;
        match objects::look_at(words, self.s, d.at) {
            Look::White(len) if d.filled <= len => self.place(d.at, len, d.filled),
            _ => Err(Refusal::Damaged),
        }
    }

    // The pending objects of the tasks.
    #[tactic(auto, using(crate::proofs::Turns::begins))]
    pub fn pendings(&mut self, tasks: &[Task]) -> Result<(), Refusal>
        ensures { Leaves result self.old self.new (pass_of (pending_pass self.old.end self.old.s) tasks.now) }
    {
        for e in tasks {
            self.visit_pending(e.pending)?;
        }
        Ok(())
    }

    // The shared roots.
    #[tactic(auto, using(crate::proofs::Turns::begins, crate::proofs::Turns::goes_on, crate::proofs::Turns::stops))]
    pub fn roots(&mut self, qs: &[Primary]) -> Result<(), Refusal>
        ensures { Leaves result self.old self.new (pass_of (visit_of self.old.end self.old.s) qs.now) }
    {
        for q in qs {
            self.visit(*q)?;
        }
        Ok(())
    }

    // The registers of the tasks. (Labelled, as 01 has it where roots inside tasks are visited: a refusal leaves both loops.)
    #[tactic(auto, using(crate::proofs::Turns::begins))]
    pub fn registers(&mut self, tasks: &[Task]) -> Result<(), Refusal>
        ensures { Leaves result self.old self.new (pass_of (register_pass self.old.end self.old.s) tasks.now) }
    {
        'tasks: {
            for e in tasks {
                // as a slice: of an array in an element of a slice the proof does not know that it holds eight
                for q in &e.regs[..] {
                    if let Err(x) = self.visit(*q) {
                        break 'tasks Err(x);
                    }
                }
            }
            Ok(())
        }
    }
}
