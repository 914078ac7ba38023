// The lines of a block, each by its call on the heap. The words in use are the first 2+2H of the largest buffer.
// Each call stands in the loop, and its table goes straight back into one local: a function between copies it once more.
ghost use Rattle.std.specs.Prelude.{◌≡◌, ◌≤◌, length, IfOk};

use crate::lines::Run;
use heap::Outcome;
use script::Said;
use std::io;
use std::io::Write;

// What a line says; one that outgrew the buffer cannot be read.
fn said_by(line: &[u8], skip: bool) -> Option<Said> {
    if skip {
        return None;
    }
    script::read_line(line)
}

impl Run<'_> {
    // Answers each whole line of a block, and says how many bytes are left behind the last. Where the output cannot be
    // written, no further line is answered: the error is the write's own, and the run is not to go on:
    // its table is that before the block.
    pub fn answer_lines<W: Write>(&mut self, output: &mut W, block: &[u8]) -> io::Result<usize>
        ensures left { IfOk result (λ left. left ≤ length block.now) }
        ensures have { self.new.have ≡ self.old.have }
    {
        let mut rest = block;
        let mut t = self.table;
        // (A line is an enum, and each arm has other parameters.)
        while let Some(end) = blocks::line_end(rest) {
            let at = blocks::room_in(output, self.out, self.used)?;
            let said = said_by(&rest[..end], self.skip);
            self.skip = false;
            rest = &rest[end + 1..];
            let Some(said) = said else {
                self.used = answers::write_unreadable(self.out, at);
                continue;
            };
            let half = match said {
                Said::Setup(_, _, h, _) => h,
                _ => t.limits.h,
            };
            let ws = &mut self.words[..blocks::size_of(half)];
            let Outcome { table, answer } = match said {
                Said::Setup(p, s, h, k) => heap::setup(t, p, s, h, k, ws),
                Said::New(task, r, len, m) => heap::begin_new(t, ws, task, r, len, m),
                Said::Fill(task, w) => heap::begin_fill(t, ws, task, w),
                Said::FillPointer(task, r) => heap::begin_fill_pointer(t, ws, task, r),
                Said::Load(task, to, reg, slot) => heap::load(t, ws, task, to, reg, slot),
                Said::Store(task, object, slot, w) => heap::begin_store(
                    t, ws, task, object, slot, w,
                ),
                Said::StorePointer(task, object, slot, r) => heap::begin_store_pointer(
                    t, ws, task, object, slot, r,
                ),
                Said::Move(task, to, reg) => heap::move_register(t, ws, task, to, reg),
                Said::Clear(task, r) => heap::clear_register(t, ws, task, r),
                Said::Same(task, a, b) => heap::same(t, ws, task, a, b),
                Said::Put(task, root, r) => heap::put_root(t, ws, task, root, r),
                Said::Get(task, r, root) => heap::get_root(t, ws, task, r, root),
                Said::Step(task) => heap::step(t, ws, task),
                Said::Report => heap::report(t, ws),
            };
            t = table;
            self.used = answers::write_answer(answer, self.out, at);
        }
        self.table = t;
        Ok(rest.len())
    }
}
