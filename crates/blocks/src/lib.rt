// Blocks of input and output: reading the next, finding a line's end, making room for an answer.
#![tactic(auto)]

ghost use Rattle.std.specs.Prelude.{◌≡◌, ◌≢◌, ℕ, ◌+◌, ◌-◌, ◌*◌, ◌≤◌, ◌<◌, true, false, length, take, drop, slice_index, Ok, IfSome, IfNone, IfOk, OnOk, OnErr};
ghost use Rattle.std.specs.Io.KnownBytes.{Appends, Consumes, Keeps, IsAtEnd};
ghost use Rattle.blocks.specs.Writes.{AppendsPart};

use std::io;
use std::io::{Read, Write};

// How many bytes of the input's buffer are lines to answer, and whether the input has ended: a last block has bytes too.
#[derive(Drop)]
pub struct Block {
    pub last: bool,
    pub n: usize,
}

// Where the first line ends: the first line end of the bytes, or none.
pub fn line_end(bytes: &[u8]) -> Option<usize>
    ensures within { IfSome result (λ end. end < length bytes.now) }
    ensures before { IfSome result (λ end. (k : ℕ) → k < end → slice_index bytes.now k ≢ 10) }
    ensures found { IfSome result (λ end. slice_index bytes.now end ≡ 10) }
    ensures none { IfNone result ((k : ℕ) → k < length bytes.now → slice_index bytes.now k ≢ 10) }
{
    bytes.iter().position(|&b| b == b'\n')
}

// Writes the bytes. An error is the writer's own, or that it took nothing; it comes only where something is left
// unwritten, and what was written before it stays: `write_all` says neither, and tries an interrupted write again.
pub fn flush<W: Write>(output: &mut W, bytes: &[u8]) -> io::Result<()>
    ensures written { OnOk result (Appends (W.contents output.old) (W.contents output.new) bytes.now) }
    ensures cut { OnErr result (AppendsPart (W.contents output.old) (W.contents output.new) bytes.now) }
{
    let mut rest = bytes;
    while !rest.is_empty() {
        let n = output.write(rest)?;
        if n == 0 {
            return Err(io::Error::from(io::ErrorKind::WriteZero));
        }
        rest = &rest[n..];
    }
    Ok(())
}

// Room for an answer, where it begins: writes what is there if there is none left. An error is that of the write. (The buffer is
// lent whole, since the answer goes behind what is in use.)
pub fn room_in<W: Write>(output: &mut W, out: &[u8], used: usize) -> io::Result<usize>
    requires { (used ≤ length out.now) × (64 ≤ length out.now) }
    ensures room { IfOk result (λ at. at + 40 ≤ length out.now) }
    ensures full { length out.now < used + 64 → IfOk result (λ at. (at ≡ 0) × Appends (W.contents output.old) (W.contents output.new) (take used out.now)) }
    ensures free { used + 64 ≤ length out.now → (result ≡ Ok used) × (output.new ≡ output.old) }
    ensures cut { OnErr result (AppendsPart (W.contents output.old) (W.contents output.new) (take used out.now)) }
{
    if out.len() - used < 64 {
        flush(output, &out[..used])?;
        return Ok(0);
    }
    Ok(used)
}

// Moves the bytes from `from` up to n to the front, and answers how many they are. (Of the whole buffer: its front takes them.)
pub fn to_front(buf: &mut [u8], from: usize, n: usize) -> usize
    requires { (from ≤ n) × (n ≤ length buf.old) }
    ensures count { result + from ≡ n }
    ensures moved { (k : ℕ) → k < result → slice_index buf.new k ≡ slice_index buf.old (k + from) }
{
    buf.copy_within(from..n, 0);
    n - from
}

// Reads the next block behind the unfinished line. Where the input has ended, a last line without its line end gets
// one. The unfinished line stays as it was, also where the input cannot be read.
pub fn next_block<R: Read>(
    input: &mut R,
    buf: &mut [u8],
    have: usize,
    skip: bool,
) -> io::Result<Block>
    requires { have < length buf.old }
    ensures within { IfOk result (λ block. block.n ≤ length buf.old) }
    ensures kept { take have buf.new ≡ take have buf.old }
    ensures more { IfOk result (λ block. block.last ≡ false → (have < block.n) × Consumes (R.remaining input.old) (R.remaining input.new) (take (block.n - have) (drop have buf.new))) }
    ensures ended { IfOk result (λ block. block.last ≡ true → IsAtEnd (R.remaining input.new)) }
    ensures closed { IfOk result (λ block. block.last ≡ true → 0 < block.n → (block.n ≡ have + 1) × (slice_index buf.new have ≡ 10)) }
    ensures answered { IfOk result (λ block. block.n ≡ 0 → (have ≡ 0) × (skip ≡ false)) }
    ensures quiet { IfOk result (λ block. block.last ≡ true → have ≡ 0 → skip ≡ false → block.n ≡ 0) }
    ensures unread { OnErr result (Keeps (R.remaining input.old) (R.remaining input.new)) }
{
    let got = input.read(&mut buf[have..])?;
    if got == 0 {
        if have == 0 && !skip {
            return Ok(Block { last: true, n: 0 });
        }
        buf[have] = b'\n';
        return Ok(Block {
            last: true,
            n: have + 1,
        });
    }
    Ok(Block {
        last: false,
        n: have + got,
    })
}

// How many words a heap of half size H has; none for an H that no heap has.
pub fn size_of(h: u32) -> usize
    ensures most { result ≤ 16382 }
    ensures heap { h ≤ 8190 → result ≡ 2 + 2 * h }
    ensures none { 8190 < h → result ≡ 0 }
{
    if 8190 < h { 0 } else { 2 + 2 * (h as usize) }
}
