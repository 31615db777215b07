// The sheet: from the bytes of a job to the bytes of its answer.
#![tactic(auto)]

ghost use Rattle.std.specs.Prelude.{◌≤◌, length};
ghost use Rattle.answering.specs.Steps.{Wrote};
ghost use Rattle.sheet.specs.Answer.{sheet_answer, Answered};

use asking::answer_sheet;
use lines::sheet_head;
use putting::{copy_bytes, put_note};

// Writes the answer of a sheet in a buffer that is long enough for any.
fn answer_text(out: &mut [u8], text: &[u8]) -> usize
    requires { 1342 ≤ length out.old }
    ensures { Wrote (sheet_answer text.now) out.old result out.new }
{
    match sheet_head(text) {
        Ok(head) => answer_sheet(out, text, head),
        Err(line) => put_note(out, 0, b"bad\t", line as u64),
    }
}

// Answers a sheet in a lent buffer, of which 1342 bytes are always enough, and says how long the answer is. Where it does not fit,
// nothing is written and 0 is said.
pub fn thin_sheet(text: &[u8], answer: &mut [u8]) -> usize
    ensures { Answered text.now answer.old result answer.new }
{
    let mut out = [0u8; 1342];
    let long = answer_text(&mut out[..], text);
    if answer.len() < long {
        return 0;
    }
    copy_bytes(&mut answer[..long], &out[..long]);
    long
}
