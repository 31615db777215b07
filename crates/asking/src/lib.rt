// The job of a sheet: read from its bytes, thinned, and answered in a buffer.
#![tactic(auto)]

ghost use Rattle.std.specs.Prelude.{◌≡◌, ◌≤◌, length};
ghost use Rattle.draw.specs.SplitMix.{seeded};
ghost use Rattle.faults.specs.Faults.{edition_fault};
ghost use Rattle.form.specs.Reading.{weights_of, matrix_of};
ghost use Rattle.answering.specs.Steps.{Wrote};
ghost use Rattle.asking.specs.Jobs.{job_text, source_of};
ghost use Rattle.asking.specs.Lent.{JobLent};

use answering::put_answer;
use contents::{read_matrix, read_weights};
use head::Head;
use rules::Rule;
use sparsification::{Job, thin};

// Thins, and writes the answer.
fn answer_job(
    out: &mut [u8],
    matrix: &[f64],
    m: usize,
    n: usize,
    weights: &[f64],
    seed: u64,
    edition: u32,
    rule: Rule,
    output: &mut [f64],
) -> usize
    requires { JobLent 1342 m n matrix.now weights.now edition output.old out.old }
    ensures { Wrote (job_text rule (seeded seed edition) matrix.now m n weights.now)
        out.old result out.new }
{
    let mut numbers = [0.0f64; 4136];
    let mut indices = [0u32; 776];
    let job = Job {
        seed,
        edition,
        rule,
    };
    let a = thin(
        matrix,
        m,
        n,
        weights,
        job,
        &mut output[..],
        &mut numbers[..],
        &mut indices[..],
    );
    put_answer(out, a, &output[..])
}

// Reads the columns of a sheet of the form, and answers its job.
pub fn answer_sheet(out: &mut [u8], text: &[u8], head: Head) -> usize
    requires { (head.m ≤ 32) × (head.n ≤ 64) × (head.next ≤ 1000) × (1342 ≤ length out.old) × (edition_fault head.edition ≡ 0) }
    ensures { Wrote (job_text head.rule (source_of head) (matrix_of text.now head) head.m head.n
        (weights_of text.now head)) out.old result out.new }
{
    let m = head.m;
    let n = head.n;
    let rule = head.rule;
    let size = m * n;
    let mut matrix = [0.0f64; 2048];
    let mut weights = [0.0f64; 32];
    let mut output = [0.0f64; 32];
    read_matrix(&mut matrix[..size], text, head.next, n);
    read_weights(&mut weights[..m], text, head.next, n);
    answer_job(
        out,
        &matrix[..size],
        m,
        n,
        &weights[..m],
        head.seed,
        head.edition,
        rule,
        &mut output[..m],
    )
}
