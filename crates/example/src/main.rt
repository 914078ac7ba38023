// The self-pointing example and the room examples, through the library: the calls stand in calls.rt, and each answer is
// written with the state behind it, A, top, J and whether something is grey.
#![tactic(auto)]

mod calls;
mod words;

use heap::{Outcome, Table};
use std::io;
use std::io::Write;

// One call by its letter, with up to four numbers. The letters stand only in calls.rt: an enum of calls would be matched
// from them first, and then again here.
fn made(t: Table, words: &mut [u32], letter: u8, a: u32, b: u32, c: u32, d: u32) -> Outcome {
    match letter {
        b's' => heap::setup(t, a, b, c, d, words),
        b'n' => heap::begin_new(t, words, a, b, c, d),
        b'f' => heap::begin_fill(t, words, a, b),
        b'F' => heap::begin_fill_pointer(t, words, a, b),
        b'T' => heap::begin_store_pointer(t, words, a, b, c, d),
        b'c' => heap::clear_register(t, words, a, b),
        b'.' => heap::step(t, words, a),
        _ => heap::report(t, words),
    }
}

// A byte as calls.rt writes a number.
fn number(b: u8) -> u32 {
    u32::from(b.saturating_sub(b'0'))
}

// Makes the calls, from a table never set up, and writes each answer and the state behind it, as long as they can be
// written.
pub fn run<W: Write>(output: &mut W, words: &mut [u32], calls: &[u8]) -> io::Result<()> {
    let mut t = heap::unset();
    for call in calls.chunks_exact(6) {
        let &[letter, a, b, c, d, _] = call else {
            unreachable!()
        };
        let [a, b, c, d] = [a, b, c, d].map(number);
        let Outcome { table, answer } = made(t, words, letter, a, b, c, d);
        words::say(output, answer)?;
        words::state(output, table)?;
        t = table;
    }
    Ok(())
}

fn main(rt: HostRuntime) -> io::Result<()> {
    let mut words = [0u32; 130];
    calls::all_examples(&mut rt.stdout(), &mut words)
}
