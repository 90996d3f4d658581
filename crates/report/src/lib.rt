// The answers to a journal's records, as bytes and as text. Answer n of a list stands in the five bytes from 5 x n on:
// the code, then the minutes in four bytes (REPLAY-1). The text is that of PROGRAM-1 and PROGRAM-2 (docs/RULES.md).
// Every function takes buffers of any length: what does not fit is not stored. The rules are in specs/: Answers.antt
// has the bytes, Text.antt the text.
#![tactic(auto)]

ghost use Rattle.std.specs.Prelude.{◌≡◌};
ghost use Rattle.report.specs.Answers.{with_answer};
ghost use Rattle.report.specs.Text.{text_of, put_all};

use writing::Text;

mod writing;

// The length of an answer in bytes.
pub const ANSWER: usize = 5;

// Stores answer n (REPLAY-1). A code and no refusal, here and below: these write and read the bytes of REPLAY-1, which
// are lent by C, whatever stands there, and a count of answers: the buffer may be longer.
#[tactic(auto, unfolding(crate::specs::Answers::with_answer))]
pub fn put_answer(s: &mut [u8], n: u32, code: u8, minutes: u32)
    ensures { s.new ≡ with_answer s.old n code minutes }
{
    let at = ANSWER * (n as usize);
    bigendian::put(s, at, code);
    bigendian::put(s, at + 1, minutes);
}

// The text of a list of answers: a line for each, its number from 1, its code, its minutes; of a refusal its number on
// one line (PROGRAM-1, PROGRAM-2). Says how long the text is that the buffer then holds from its start on: a count, as
// `read` gives, since no clause can name a buffer that the answer borrows, and the promise names all of it.
pub fn text(code: u8, answers: &[u8], count: u32, out: &mut [u8]) -> usize
    ensures { record { place = result; bytes = out.new }
        ≡ put_all out.old 0 (text_of code answers.now count) }
{
    let mut text = Text { out, at: 0 };
    text.put_text(code, answers, count);
    text.at
}
