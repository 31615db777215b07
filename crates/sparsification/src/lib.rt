// The thinning: sparsify, sparsify_within, and thin, which takes either's rule in a job.
#![tactic(auto)]

ghost use Rattle.std.specs.Prelude.{◌≡◌, length, true};
ghost use Rattle.seq.specs.Sums.{plus_zero};
ghost use Rattle.draw.specs.SplitMix.{seeded};
ghost use Rattle.answers.specs.Answers.{Thinned};
ghost use Rattle.answers.specs.Thinning.{ThinnedFrom};
ghost use Rattle.rules.specs.Rules.{rule_fault};
ghost use Rattle.faults.specs.Faults.{value_fault};
ghost use Rattle.rules.specs.declared.Rule.TheVariants.{Target, Within};
ghost use Rattle.limits.specs.Limits.{bounded};
ghost use Rattle.limits.specs.Reading.{read_of};
ghost use Rattle.ieee.specs.Constants.{one};
ghost use Rattle.weights.specs.Weights.{normalized};
ghost use Rattle.halved.specs.Handed.{Ready};
ghost use Rattle.stages.specs.Paths.{Followed};

use answers::{Answer, answer_for, refused};
use draw::SplitMix64;
use faults::job_fault;
use rules::Rule;
use seq::{copy, fill};
use stages::Path;
use toallowance::to_allowance;
use totarget::to_target;
use weights::normalize;

// A seed, the edition of its draws, 1 or 2, and a rule.
#[derive(Clone, Copy)]
pub struct Job {
    pub seed: u64,
    pub edition: u32,
    pub rule: Rule,
}

// Follows the stages to the one at which the rule stops; the path to there. w and start are the normalized weights, next is room for a
// pass that is only tried.
fn follow(
    matrix: &[f64],
    bits: &[u8],
    n: usize,
    start: &[f64],
    w: &mut [f64],
    next: &mut [f64],
    numbers: &mut [f64],
    indices: &mut [u32],
    source: SplitMix64,
    rule: Rule,
) -> Path
    requires { Ready matrix.now bits.now n w.old numbers.old indices.old × (bounded one w.old ≡ true) × (w.old ≡ start.now)
        × (length next.old ≡ length w.old) × (rule_fault rule ≡ 0) }
    ensures { Followed (read_of matrix.now bits.now n) n w.old source rule result w.new }
{
    match rule {
        Rule::Target(t) => to_target(matrix, bits, n, start, w, numbers, indices, source, t),
        Rule::Within { allowance, cap } => to_allowance(
            matrix, bits, n, start, w, next, numbers, indices, source, allowance, cap,
        ),
    }
}

// Thins from the normalized weights into the output, and wipes the scratch. next is room for a pass that is only tried.
fn thin_on(
    matrix: &[f64],
    bits: &[u8],
    n: usize,
    start: &[f64],
    next: &mut [f64],
    source: SplitMix64,
    rule: Rule,
    output: &mut [f64],
    numbers: &mut [f64],
    indices: &mut [u32],
) -> Answer
    requires { Ready matrix.now bits.now n start.now numbers.old indices.old × (bounded one start.now ≡ true)
        × (length next.old ≡ length start.now) × (length output.old ≡ length start.now) × (rule_fault rule ≡ 0) }
    ensures { ThinnedFrom (read_of matrix.now bits.now n) n start.now source rule
        numbers.old
        indices.old result output.new numbers.new indices.new }
{
    copy(&mut output[..], start);
    let path = follow(
        matrix,
        bits,
        n,
        start,
        &mut output[..],
        next,
        &mut numbers[..],
        &mut indices[..],
        source,
        rule,
    );
    fill(numbers, 0.0);
    fill(indices, 0);
    answer_for(path)
}

// Normalizes the weights of a job that has no fault, and thins from there. start is room for them.
pub fn thin_sound(
    matrix: &[f64],
    bits: &[u8],
    n: usize,
    weights: &[f64],
    start: &mut [f64],
    source: SplitMix64,
    rule: Rule,
    output: &mut [f64],
    numbers: &mut [f64],
    indices: &mut [u32],
) -> Answer
    requires { Ready matrix.now bits.now n weights.now numbers.old indices.old × (value_fault matrix.now weights.now ≡ 0)
        × (length start.old ≡ length weights.now) × (length output.old ≡ length weights.now) × (rule_fault rule ≡ 0) }
    ensures { ThinnedFrom (read_of matrix.now bits.now n) n
        (normalized plus_zero weights.now) source rule
        numbers.old indices.old result output.new numbers.new indices.new }
{
    let m = weights.len();
    let mut next = [0.0f64; 256];
    copy(&mut start[..], weights);
    normalize(&mut start[..]);
    thin_on(
        matrix,
        bits,
        n,
        &start[..],
        &mut next[..m],
        source,
        rule,
        output,
        numbers,
        indices,
    )
}

// Thins as the job says: by its target, or within its allowance and cap.
pub fn thin(
    matrix: &[f64],
    m: usize,
    n: usize,
    weights: &[f64],
    job: Job,
    output: &mut [f64],
    numbers: &mut [f64],
    indices: &mut [u32],
) -> Answer
    ensures { Thinned job.rule (seeded job.seed job.edition) matrix.now m n weights.now
        output.old
        numbers.old indices.old result output.new numbers.new indices.new }
{
    let rule = job.rule;
    if let Err(refusal) = job_fault(
        rule,
        job.edition,
        matrix,
        m,
        n,
        weights,
        output.len(),
        numbers.len(),
        indices.len(),
    ) {
        return refused(refusal.number());
    }
    let none = [0u8; 0];
    let mut start = [0.0f64; 256];
    thin_sound(
        matrix,
        &none[..],
        n,
        weights,
        &mut start[..m],
        SplitMix64::new(job.seed, job.edition),
        rule,
        output,
        numbers,
        indices,
    )
}

// Thins to at most `target` nonzero entries.
pub fn sparsify(
    matrix: &[f64],
    m: usize,
    n: usize,
    weights: &[f64],
    seed: u64,
    edition: u32,
    target: usize,
    output: &mut [f64],
    numbers: &mut [f64],
    indices: &mut [u32],
) -> Answer
    ensures { Thinned (Target target) (seeded seed edition) matrix.now m n weights.now output.old
        numbers.old indices.old result output.new numbers.new indices.new }
{
    thin(
        matrix,
        m,
        n,
        weights,
        Job {
            seed,
            edition,
            rule: Rule::Target(target),
        },
        output,
        numbers,
        indices,
    )
}

// Thins as far as no margin moves by more than `allowance`, or as far as the cap asks.
pub fn sparsify_within(
    matrix: &[f64],
    m: usize,
    n: usize,
    weights: &[f64],
    seed: u64,
    edition: u32,
    allowance: f64,
    cap: Option<usize>,
    output: &mut [f64],
    numbers: &mut [f64],
    indices: &mut [u32],
) -> Answer
    ensures { Thinned (Within allowance cap) (seeded seed edition) matrix.now m n weights.now
        output.old
        numbers.old indices.old result output.new numbers.new indices.new }
{
    thin(
        matrix,
        m,
        n,
        weights,
        Job {
            seed,
            edition,
            rule: Rule::Within { allowance, cap },
        },
        output,
        numbers,
        indices,
    )
}
