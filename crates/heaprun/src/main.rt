// heaprun: reads all of standard input in blocks, answers each line, and writes the answers in blocks.
#![tactic(auto)]

mod calls;
mod lines;

use std::io;

fn main(rt: HostRuntime) -> io::Result<()> {
    let mut words = [0u32; 16382];
    let mut buf = [0u8; 65536];
    let mut out = [0u8; 65536];
    lines::all_turns(
        &mut rt.stdin(),
        &mut rt.stdout(),
        &mut words,
        &mut buf,
        &mut out,
    )
}
