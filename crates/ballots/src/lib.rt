// Thinning from a matrix of votes, one bit a margin: the bits are read where they stand, and every answer is that of thinning from the
// doubles that they stand for.
#![tactic(auto)]

ghost use Rattle.draw.specs.SplitMix.{seeded};
ghost use Rattle.rules.specs.declared.Rule.TheVariants.{Target, Within};
ghost use Rattle.bitfaults.specs.Ballots.{BitsThinned};

use answers::{Answer, refused};
use bitfaults::votes_fault;
use draw::SplitMix64;
use rules::Rule;
use sparsification::{Job, thin_sound};

// Thins as the job says, from bits.
pub fn thin_bits(
    bits: &[u8],
    m: usize,
    n: usize,
    weights: &[f64],
    job: Job,
    output: &mut [f64],
    numbers: &mut [f64],
    indices: &mut [u32],
) -> Answer
    ensures { BitsThinned job.rule (seeded job.seed job.edition) bits.now m n weights.now
        output.old numbers.old indices.old result output.new numbers.new
        indices.new }
{
    let rule = job.rule;
    if let Err(refusal) = votes_fault(
        rule,
        job.edition,
        bits,
        m,
        n,
        weights,
        output.len(),
        numbers.len(),
        indices.len(),
    ) {
        return refused(refusal.number());
    }
    let none = [0.0f64; 0];
    let mut start = [0.0f64; 256];
    thin_sound(
        &none[..],
        bits,
        n,
        weights,
        &mut start[..m],
        SplitMix64::new(job.seed, job.edition),
        rule,
        output,
        numbers,
        indices,
    )
}

// Thins to at most `target` nonzero entries, from bits.
pub fn sparsify_bits(
    bits: &[u8],
    m: usize,
    n: usize,
    weights: &[f64],
    seed: u64,
    edition: u32,
    target: usize,
    output: &mut [f64],
    numbers: &mut [f64],
    indices: &mut [u32],
) -> Answer
    ensures { BitsThinned (Target target) (seeded seed edition) bits.now m n weights.now
        output.old numbers.old indices.old result output.new numbers.new
        indices.new }
{
    thin_bits(
        bits,
        m,
        n,
        weights,
        Job {
            seed,
            edition,
            rule: Rule::Target(target),
        },
        output,
        numbers,
        indices,
    )
}

// Thins as far as no margin moves by more than `allowance`, or as far as the cap asks, from bits.
pub fn sparsify_within_bits(
    bits: &[u8],
    m: usize,
    n: usize,
    weights: &[f64],
    seed: u64,
    edition: u32,
    allowance: f64,
    cap: Option<usize>,
    output: &mut [f64],
    numbers: &mut [f64],
    indices: &mut [u32],
) -> Answer
    ensures { BitsThinned (Within allowance cap) (seeded seed edition) bits.now m n weights.now
        output.old numbers.old indices.old result output.new numbers.new
        indices.new }
{
    thin_bits(
        bits,
        m,
        n,
        weights,
        Job {
            seed,
            edition,
            rule: Rule::Within { allowance, cap },
        },
        output,
        numbers,
        indices,
    )
}
