// Which word moved, of a sheet: from the bytes of a job to the bytes of its answer with a line for each word behind it.
#![tactic(auto)]

ghost use Rattle.std.specs.Prelude.{◌≡◌, ◌≤◌, length};
ghost use Rattle.draw.specs.SplitMix.{seeded};
ghost use Rattle.faults.specs.Faults.{edition_fault};
ghost use Rattle.form.specs.Reading.{weights_of, matrix_of};
ghost use Rattle.keeping.specs.Saved.{Laid};
ghost use Rattle.answering.specs.Steps.{Wrote};
ghost use Rattle.asking.specs.Jobs.{source_of};
ghost use Rattle.asking.specs.Lent.{JobLent};
ghost use Rattle.words.specs.Words.{moved_text, moved_answer};

use answering::put_answer;
use contents::{read_matrix, read_weights};
use head::Head;
use lines::sheet_head;
use listing::put_moves;
use putting::{copy_bytes, put_note};
use rules::Rule;
use sparsification::{Job, thin};

// Thins, and writes the answer and, where the job is accepted, the words.
fn answer_job(
    out: &mut [u8],
    matrix: &[f64],
    m: usize,
    n: usize,
    weights: &[f64],
    seed: u64,
    edition: u32,
    rule: Rule,
    output: &mut [f64],
) -> usize
    requires { JobLent 4094 m n matrix.now weights.now edition output.old out.old }
    ensures { Wrote (moved_text rule (seeded seed edition) matrix.now m n weights.now)
        out.old result out.new }
{
    let mut numbers = [0.0f64; 4136];
    let mut indices = [0u32; 776];
    let job = Job {
        seed,
        edition,
        rule,
    };
    let a = thin(
        matrix,
        m,
        n,
        weights,
        job,
        &mut output[..],
        &mut numbers[..],
        &mut indices[..],
    );
    let end = put_answer(&mut out[..], a, &output[..]);
    if a.number != 0 {
        return end;
    }
    put_moves(out, end, matrix, m, n, weights, &output[..])
}

// Reads the columns of a sheet of the form, and answers its job. It differs from the one of `asking` only in the job that it calls; a closure
// in that job's place would repeat its nine arguments and both clauses.
fn answer_sheet(out: &mut [u8], text: &[u8], head: Head) -> usize
    requires { (head.m ≤ 32) × (head.n ≤ 64) × (head.next ≤ 1000) × (4094 ≤ length out.old) × (edition_fault head.edition ≡ 0) }
    ensures { Wrote (moved_text head.rule (source_of head) (matrix_of text.now head) head.m head.n
        (weights_of text.now head)) out.old result out.new }
{
    let m = head.m;
    let n = head.n;
    let rule = head.rule;
    let size = m * n;
    let mut matrix = [0.0f64; 2048];
    let mut weights = [0.0f64; 32];
    let mut output = [0.0f64; 32];
    read_matrix(&mut matrix[..size], text, head.next, n);
    read_weights(&mut weights[..m], text, head.next, n);
    answer_job(
        out,
        &matrix[..size],
        m,
        n,
        &weights[..m],
        head.seed,
        head.edition,
        rule,
        &mut output[..m],
    )
}

// Writes the answer of a sheet in a buffer that is long enough for any.
fn answer_text(out: &mut [u8], text: &[u8]) -> usize
    requires { 4094 ≤ length out.old }
    ensures { Wrote (moved_answer text.now) out.old result out.new }
{
    match sheet_head(text) {
        Ok(head) => answer_sheet(out, text, head),
        Err(line) => put_note(out, 0, b"bad\t", line as u64),
    }
}

// Answers a sheet in a lent buffer, of which 4094 bytes are always enough, and says how long the answer is. Where it does not fit,
// nothing is written and 0 is said.
pub fn moved_sheet(text: &[u8], answer: &mut [u8]) -> usize
    ensures { Laid (moved_answer text.now) answer.old result answer.new }
{
    let mut out = [0u8; 4094];
    let long = answer_text(&mut out[..], text);
    if answer.len() < long {
        return 0;
    }
    copy_bytes(&mut answer[..long], &out[..long]);
    long
}
