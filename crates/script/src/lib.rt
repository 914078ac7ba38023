// The script program's lines: a record read as a call. It works on bytes that the caller lends, so that nothing here
// reads a file.
#![tactic(auto)]

ghost use Rattle.std.specs.Prelude.{◌≡◌};
ghost use Rattle.script.specs.Line.{line_of};

mod reader;

// No record has more numbers.
const MOST_NUMBERS: usize = 4;

// What a line says: the record of 01 with its numbers in their order.
#[derive(Clone, Copy)]
pub enum Said {
    // P, S, H, k
    Setup(u32, u32, u32, u32),
    // task, register, L, m
    New(u32, u32, u32, u32),
    // task, word
    Fill(u32, u32),
    // task, register
    FillPointer(u32, u32),
    // task, to, from, slot
    Load(u32, u32, u32, u32),
    // task, object, slot, word
    Store(u32, u32, u32, u32),
    // task, object, slot, register
    StorePointer(u32, u32, u32, u32),
    // task, to, from
    Move(u32, u32, u32),
    // task, register
    Clear(u32, u32),
    // task, a, b
    Same(u32, u32, u32),
    // task, root, register
    Put(u32, u32, u32),
    // task, register, root
    Get(u32, u32, u32),
    // task
    Step(u32),
    Report,
}

// What a line says, if it can be read; the line is without its newline.
#[tactic(auto, using(crate::proofs::Records::nameless, crate::proofs::Records::befores_on, crate::proofs::Records::stuck, crate::proofs::Records::ended, crate::proofs::Records::crowded))]
pub fn read_line(line: &[u8]) -> Option<Said>
    ensures { result ≡ line_of line.now }
{
    let (name, mut rest) = reader::cut(line)?;
    let mut numbers = [0; MOST_NUMBERS];
    // Counted by hand: written through `get_mut`, or through the `next` of an `iter_mut`, a proof knows no more what the array holds;
    // and no `for` fits, since the fields are read one behind the other.
    let mut n = 0;
    while let Some(fields) = rest {
        if n == MOST_NUMBERS {
            return None;
        }
        let (number, more) = reader::number(fields)?;
        numbers[n] = number;
        n += 1;
        rest = more;
    }
    reader::record(name, &numbers[..n])
}
