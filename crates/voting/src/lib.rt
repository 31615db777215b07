// Thinning from labels and confidences, the kept columns packed. No margin is formed: the sign of a row reaches no answer.
#![tactic(auto)]

ghost use Rattle.draw.specs.SplitMix.{seeded};
ghost use Rattle.votefaults.specs.Votes.{VotesThinned};

use answers::{Answer, refused};
use packing::pack;
use sparsification::{Job, thin};
use votefaults::call_fault;

// Thins the columns of margins, label times confidence, as the job says, and packs what is left: the kept columns' numbers and their
// weights.
pub fn thin_votes(
    confidences: &[f64],
    labels: &[i8],
    m: usize,
    n: usize,
    weights: &[f64],
    job: Job,
    columns: &mut [u32],
    kept: &mut [f64],
    numbers: &mut [f64],
    indices: &mut [u32],
) -> Answer
    ensures { VotesThinned job.rule (seeded job.seed job.edition) confidences.now labels.now m n
        weights.now columns.old kept.old numbers.old indices.old result
        columns.new kept.new numbers.new indices.new }
{
    let rule = job.rule;
    if let Err(refusal) = call_fault(
        rule,
        job.edition,
        confidences.len(),
        labels,
        m,
        n,
        weights.len(),
        columns.len(),
        kept.len(),
        numbers.len(),
        indices.len(),
    ) {
        return refused(refusal.number());
    }
    let mut output = [0.0f64; 256];
    let answer = thin(
        confidences,
        m,
        n,
        weights,
        job,
        &mut output[..m],
        numbers,
        indices,
    );
    if answer.number != 0 {
        return answer;
    }
    pack(columns, kept, &output[..m]);
    answer
}
