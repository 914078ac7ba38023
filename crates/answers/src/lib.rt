// The script program's answers: an answer written as a line. It works on bytes that the caller lends, so that nothing
// here writes a file.
#![tactic(auto)]

ghost use Rattle.std.specs.Prelude.{◌≡◌, ◌+◌, ◌≤◌, length};
ghost use Rattle.answers.specs.Text.{answer_text, unreadable_text, wrote, written};

mod writer;

use table::Answer;

// Puts the line of an answer into out from `at` on, and answers the index past it: the bytes are lent whole, so the place stands
// beside them.
// Not by `Display`: std says what was written only of its `InlineText`, and through that a script takes a fifth longer.
#[tactic(auto, using(crate::proofs::Put::wrote_next), unfolding(crate::specs::Text::answer_text))]
pub fn write_answer(answer: Answer, out: &mut [u8], at: usize) -> usize
    requires { at + 40 ≤ length out.old }
    ensures out_after { wrote result out.new ≡ written (answer_text answer) out.old at }
    ensures upper_bound { result ≤ at + 40 }
{
    match answer {
        Answer::Accepted => writer::put_text(b"ok\n", out, at),
        Answer::Done => writer::put_text(b"done\n", out, at),
        Answer::Value(v) => writer::put_with(b"value\t", v, out, at),
        Answer::Moved => writer::put_text(b"moved\n", out, at),
        Answer::Wait(q) => writer::put_with(b"wait\t", q, out, at),
        Answer::Report(on, live, copies) => writer::put_report(on, live, copies, out, at),
        Answer::No(x) => writer::put_with(b"no\t", writer::number_of(x), out, at),
    }
}

// The same for a line that cannot be read.
#[tactic(auto, using(crate::proofs::Put::wrote_next), unfolding(crate::specs::Text::unreadable_text))]
pub fn write_unreadable(out: &mut [u8], at: usize) -> usize
    requires { at + 40 ≤ length out.old }
    ensures out_after { wrote result out.new ≡ written unreadable_text out.old at }
    ensures upper_bound { result ≤ at + 40 }
{
    writer::put_text(b"no\t12\n", out, at)
}
