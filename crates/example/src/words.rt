// Answers in the script program's words, and the state behind them.
use heap::{Answer, Table};
use std::io;
use std::io::Write;
use table::Marks;

// An error is the output's own.
pub fn say<W: Write>(output: &mut W, x: Answer) -> io::Result<()> {
    let mut line = [0u8; 40];
    let n = answers::write_answer(x, &mut line, 0);
    blocks::flush(output, &line[..n])
}

// A, top, J, and 1 if the collector is on and something is grey. An error is the output's own.
pub fn state<W: Write>(output: &mut W, t: Table) -> io::Result<()> {
    let Marks { a, top, j, .. } = t.marks;
    let g = u8::from(grey(t));
    writeln!(output, "# {a} {top} {j} {g}")
}

fn grey(t: Table) -> bool {
    let h = t.limits.h;
    t.on && h <= 8190
        && t.limits.p <= 8
        && search::row_of(&t).grey(t.marks, gates::end_of(t.upper, h))
}
