// The parts of the writer: text, a number, the answers with numbers.
ghost use Rattle.std.specs.Prelude.{◌≡◌, ◌++◌, ◌+◌, ◌≤◌, length};
ghost use Rattle.machine.specs.Numbers.{number_of};
ghost use Rattle.answers.specs.Text.{decimal, newline, mode_text, report_text, wrote, written};

use table::Refusal;

// 01's number of a refusal. (A `From` would stand in crates/table, below the definition that its clause names.)
pub fn number_of(x: Refusal) -> u32
    ensures { result ≡ number_of x }
{
    x as u32
}

// Puts the bytes of text into out from `at` on, and answers the index past them. (Here and below: a type of the bytes and the
// place would be made anew for each line.)
#[tactic(auto, using(crate::proofs::Put::put_part))]
pub fn put_text(text: &[u8], out: &mut [u8], at: usize) -> usize
    requires { at + length text.now ≤ length out.old }
    ensures { wrote result out.new ≡ written text.now out.old at }
{
    let end = at + text.len();
    out[at..end].copy_from_slice(text);
    end
}

// Puts the digits of n into out from `at` on, and answers the index past them.
#[tactic(auto, using(crate::proofs::Put::decimal_is))]
fn put_number(n: u32, out: &mut [u8], at: usize) -> usize
    requires { at + length (decimal n) ≤ length out.old }
    ensures { wrote result out.new ≡ written (decimal n) out.old at }
{
    put_text(itoa::Buffer::new().format(n).as_bytes(), out, at)
}

// Puts a word with its tab, a number and a newline. (Written out where it is called, with a word of known bytes.)
#[inline(always)]
#[tactic(auto, using(crate::proofs::Put::wrote_next, crate::proofs::Put::wrote_length, crate::proofs::Put::decimal_ten))]
pub fn put_with(word: &[u8], n: u32, out: &mut [u8], at: usize) -> usize
    requires { at + (length word.now + 11) ≤ length out.old }
    ensures out_after { wrote result out.new ≡ written (word.now ++ (decimal n ++ newline)) out.old at }
    ensures upper_bound { result ≤ at + (length word.now + 11) }
{
    let p = put_text(word, out, at);
    let e = put_number(n, out, p);
    put_text(b"\n", out, e)
}

// Puts the word of a report and its mode, each with its tab.
#[tactic(auto, unfolding(crate::specs::Text::mode_text))]
fn put_mode(on: bool, out: &mut [u8], at: usize) -> usize
    requires { at + 11 ≤ length out.old }
    ensures { wrote result out.new ≡ written (mode_text on) out.old at }
{
    if on {
        put_text(b"report\ton\t", out, at)
    } else {
        put_text(b"report\toff\t", out, at)
    }
}

// Puts the line of a report.
#[tactic(auto, using(crate::proofs::Put::wrote_next, crate::proofs::Put::wrote_length, crate::proofs::Put::decimal_ten, crate::proofs::Put::mode_length))]
pub fn put_report(on: bool, live: u32, copies: u32, out: &mut [u8], at: usize) -> usize
    requires { at + 40 ≤ length out.old }
    ensures out_after { wrote result out.new ≡ written (report_text on live copies) out.old at }
    ensures upper_bound { result ≤ at + 40 }
{
    let p = put_mode(on, out, at);
    let e = put_number(live, out, p);
    put_with(b"\t", copies, out, e)
}
