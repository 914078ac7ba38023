// The turns of the program: a block is read, its lines are answered, what is left of it goes to the front.
ghost use Rattle.std.specs.Prelude.{◌≤◌, ◌<◌, length, IfOk};

use blocks::Block;
use heap::Table;
use std::io;
use std::io::{Read, Write};

// What a run of the program has: the words and the output's buffer that are lent it, how much of the input's buffer is
// an unfinished line, how much of the output's is in use, whether the line that is being read has outgrown the buffer,
// and the heap's table. Nothing is allocated: a buffer is lent whole, so how much of it is in use stands beside it. `have` and
// `skip` go to `next_block` as they are: its clauses speak of both.
#[derive(Drop)]
pub struct Run<'a> {
    pub words: &'a mut [u32],
    pub out: &'a mut [u8],
    pub have: usize,
    pub used: usize,
    pub skip: bool,
    pub table: Table,
    ghost all_words: { 16382 ≤ length words.now },
    ghost room_to_write: { 64 ≤ length out.now },
    ghost in_use: { used ≤ length out.now },
}

impl Run<'_> {
    // The next block. Where it cannot be read, the answers that wait are written before the error is passed on.
    fn next_block<R: Read, W: Write>(
        &self,
        input: &mut R,
        output: &mut W,
        buf: &mut [u8],
    ) -> io::Result<Block>
        requires { self.now.have < length buf.old }
        ensures { IfOk result (λ block. block.n ≤ length buf.old) }
    {
        let block = blocks::next_block(input, buf, self.have, self.skip);
        if block.is_err() {
            blocks::flush(output, &self.out[..self.used])?;
        }
        block
    }

    // A block read and answered, and whether the input goes on. An error is that of the read or the write that failed;
    // what was written before it stays.
    fn turn<R: Read, W: Write>(
        &mut self,
        input: &mut R,
        output: &mut W,
        buf: &mut [u8],
    ) -> io::Result<bool>
        requires { self.old.have < length buf.old }
        ensures { IfOk result (λ goes_on. self.new.have < length buf.old) }
    {
        let Block { last, n } = self.next_block(input, output, buf)?;
        let left = self.answer_lines(output, &buf[..n])?;
        if last {
            blocks::flush(output, &self.out[..self.used])?;
            return Ok(false);
        }
        // A line that outgrew the buffer is not kept.
        self.skip = self.skip || buf.len() <= left;
        self.have = if self.skip {
            0
        } else {
            blocks::to_front(buf, n - left, n)
        };
        Ok(true)
    }
}

// Nothing says that the input ends, so the turns are counted, up to a number that no run reaches. An error is a turn's.
pub fn all_turns<R: Read, W: Write>(
    input: &mut R,
    output: &mut W,
    words: &mut [u32],
    buf: &mut [u8],
    out: &mut [u8],
) -> io::Result<()>
    requires { (16382 ≤ length words.old) × (1 ≤ length buf.old) × (64 ≤ length out.old) }
{
    let mut run = Run {
        words,
        out,
        have: 0,
        used: 0,
        skip: false,
        table: heap::unset(),
    };
    for _ in 0..u64::MAX {
        if !run.turn(input, output, buf)? {
            break;
        }
    }
    Ok(())
}
