// The parts of the reader: a number, and the record that a name and its numbers make.
ghost use Rattle.std.specs.Prelude.{◌≡◌, ◌≢◌, ℕ, ◌≤◌, ◌<◌, ◌∷◌, length, slice_index, MatchOption, Some, None, IfSome, IfNone};
ghost use Rattle.script.specs.Line.{fields, name_is, record_by};
ghost use Rattle.script.specs.Parts.{left, front_number, longest_name, LongName};

use super::Said;

// The names of records.
const REPORT: &[u8] = b"report";

const STEP: &[u8] = b"step";

const FILL: &[u8] = b"fill";

const FILLP: &[u8] = b"fillp";

const CLEAR: &[u8] = b"clear";

const SETUP: &[u8] = b"setup";

const MOVE: &[u8] = b"move";

const SAME: &[u8] = b"same";

const PUT: &[u8] = b"put";

const GET: &[u8] = b"get";

const NEW: &[u8] = b"new";

const LOAD: &[u8] = b"load";

const STORE: &[u8] = b"store";

const STOREP: &[u8] = b"storep";

// No name is longer.
const LONGEST_NAME: usize = 6;

// The rate of a set-up that names none.
const DEFAULT_RATE: u32 = 1;

// The number in the field at the front of `rest`, and what follows the field's tab. One pass finds the tab and reads
// the digits: cut by `split` first, a line takes over half as long again.
#[tactic(auto, using(crate::proofs::Scan::zero_last, crate::proofs::Scan::bad_empty, crate::proofs::Scan::bad_low, crate::proofs::Scan::bad_high, crate::proofs::Scan::bad_zero, crate::proofs::Scan::begins, crate::proofs::Scan::ends, crate::proofs::Scan::low, crate::proofs::Scan::high, crate::proofs::Scan::goes_on, crate::proofs::Scan::too_large))]
pub fn number(rest: &[u8]) -> Option<(u32, Option<&[u8]>)>
    ensures { MatchOption result (front_number (fields rest.now) ≡ None) (λ p. front_number (fields rest.now) ≡ Some (p.0, left p.1)) }
{
    match rest {
        [b'0'] => return Some((0, None)),
        [b'0', b'\t', more @ ..] => return Some((0, Some(more))),
        [b'1'..=b'9', ..] => {}
        _ => return None,
    }
    let mut value: u32 = 0;
    for (i, b) in rest.iter().enumerate() {
        if *b == b'\t' {
            return Some((value, Some(&rest[i + 1..])));
        }
        let b'0'..=b'9' = *b else {
            return None;
        };
        let longer = 10 * u64::from(value) + u64::from(*b - b'0');
        value = u32::try_from(longer).ok()?;
    }
    Some((value, None))
}

// Where the first tab of some bytes stands.
fn first_tab(bytes: &[u8]) -> Option<usize>
    ensures found { IfSome result (λ i. (i < length bytes.now) × (slice_index bytes.now i ≡ 9)) }
    ensures before { IfSome result (λ i. (k : ℕ) → k < i → slice_index bytes.now k ≢ 9) }
    ensures none { IfNone result ((k : ℕ) → k < length bytes.now → slice_index bytes.now k ≢ 9) }
{
    bytes.iter().position(|&b| b == b'\t')
}

// The field at the front of a line, and what follows its tab. One longer than every name is no name, and is not looked
// through: such a line costs no more than another.
#[tactic(auto, using(crate::proofs::Scan::whole_within))]
pub fn cut(line: &[u8]) -> Option<(&[u8], Option<&[u8]>)>
    ensures { MatchOption result (LongName (fields line.now)) (λ p. (fields line.now ≡ p.0.now ∷ left p.1) × (length p.0.now ≤ longest_name)) }
{
    let end = line.len().min(LONGEST_NAME + 1);
    match first_tab(&line[..end]) {
        Some(i) => Some((&line[..i], Some(&line[i + 1..]))),
        None if line.len() <= LONGEST_NAME => Some((line, None)),
        None => None,
    }
}

// What the record of this name says with these numbers.
#[tactic(auto, using(crate::proofs::Records::none, crate::proofs::Records::one, crate::proofs::Records::two, crate::proofs::Records::three, crate::proofs::Records::four, crate::proofs::Records::many), unfolding(crate::specs::Line::record_by))]
pub fn record(name: &[u8], numbers: &[u32]) -> Option<Said>
    ensures { result ≡ record_by (name_is name.now) numbers.now }
{
    match *numbers {
        [] if name == REPORT => Some(Said::Report),
        [task] if name == STEP => Some(Said::Step(task)),
        [task, word] if name == FILL => Some(Said::Fill(task, word)),
        [task, register] if name == FILLP => Some(Said::FillPointer(task, register)),
        [task, register] if name == CLEAR => Some(Said::Clear(task, register)),
        [p, s, h] if name == SETUP => Some(Said::Setup(p, s, h, DEFAULT_RATE)),
        [task, to, from] if name == MOVE => Some(Said::Move(task, to, from)),
        [task, a, b] if name == SAME => Some(Said::Same(task, a, b)),
        [task, root, register] if name == PUT => Some(Said::Put(task, root, register)),
        [task, register, root] if name == GET => Some(Said::Get(task, register, root)),
        [p, s, h, k] if name == SETUP => Some(Said::Setup(p, s, h, k)),
        [task, register, l, m] if name == NEW => Some(Said::New(task, register, l, m)),
        [task, to, from, slot] if name == LOAD => Some(Said::Load(task, to, from, slot)),
        [task, object, slot, word] if name == STORE => {
            Some(Said::Store(task, object, slot, word))
        }
        [task, object, slot, register] if name == STOREP => {
            Some(Said::StorePointer(task, object, slot, register))
        }
        _ => None,
    }
}
