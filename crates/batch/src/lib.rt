// Several jobs on one matrix, of doubles or of bits, in one call: the matrix is tested once, and each item has what thin gives on its own.
#![tactic(auto)]

ghost use Rattle.std.specs.Prelude.{◌≡◌, true, length};
ghost use Rattle.ieee.specs.Constants.{one};
ghost use Rattle.limits.specs.Limits.{bounded};
ghost use Rattle.refusal.specs.Refusals.{number_in};
ghost use Rattle.faults.specs.Faults.{size_fault};
ghost use Rattle.answers.specs.Answers.{Thinned};
ghost use Rattle.items.specs.All.{call_fault, AllThinned, ThinnedAll, BitsThinnedAll};
ghost use Rattle.items.specs.Items.{listed};
ghost use Rattle.items.specs.Lent.{lent_as, Lent};
ghost use Rattle.items.specs.Between.{Tested, Zeros, Each};

use answers::{Answer, refused};
use callfaults::{bits_whole_fault, whole_fault};
use draw::SplitMix64;
use faults::{item_fault, named_rule};
use items::{Answers, no_answers};
use refusal::Refusal;
use rules::Rule;
use seq::fill;
use sparsification::thin_sound;

// Thins one item, of a call whose sizes and matrix have been tested.
fn thin_item(
    matrix: &[f64],
    bits: &[u8],
    m: usize,
    n: usize,
    weights: &[f64],
    source: SplitMix64,
    rule: Rule,
    output: &mut [f64],
    numbers: &mut [f64],
    indices: &mut [u32],
) -> Answer
    requires { Lent matrix.now bits.now m n × (size_fault m n (length (lent_as matrix.now bits.now m n)) (length weights.now)
        (length output.old) (length numbers.old) (length indices.old) ≡ 0)
        × (bounded one (lent_as matrix.now bits.now m n) ≡ true) }
    ensures { Thinned rule source (lent_as matrix.now bits.now m n) m n weights.now
        output.old numbers.old indices.old result output.new numbers.new
        indices.new }
{
    if let Err(refusal) = item_fault(rule, source.edition, weights) {
        return refused(refusal.number());
    }
    let mut start = [0.0f64; 256];
    thin_sound(
        matrix,
        bits,
        n,
        weights,
        &mut start[..m],
        source,
        rule,
        output,
        numbers,
        indices,
    )
}

// Thins item after item, each on its parts of the weights and the output; the scratch is zero before and after each.
fn thin_items(
    matrix: &[f64],
    bits: &[u8],
    m: usize,
    n: usize,
    items: usize,
    weights: &[f64],
    seeds: &[u64],
    editions: &[u32],
    rules: &[u32],
    allowances: &[f64],
    limits: &[u64],
    output: &mut [f64],
    numbers: &mut [f64],
    indices: &mut [u32],
) -> Answers
    requires { Lent matrix.now bits.now m n × (call_fault (lent_as matrix.now bits.now m n) m n items (listed weights.now
        seeds.now editions.now rules.now allowances.now limits.now) (length output.old) (length numbers.old)
        (length indices.old) ≡ 0) × Zeros numbers.old indices.old }
    ensures { Each (lent_as matrix.now bits.now m n) m n items (listed weights.now
        seeds.now editions.now rules.now allowances.now limits.now)
        output.old numbers.old indices.old result output.new numbers.new
        indices.new }
{
    let mut answers = no_answers(0);
    for i in 0..items {
        let a = i * m;
        let e = a + m;
        answers.items[i] = thin_item(
            matrix,
            bits,
            m,
            n,
            &weights[a..e],
            SplitMix64::new(seeds[i], editions[i]),
            named_rule(rules[i], allowances[i], limits[i] as usize),
            &mut output[a..e],
            &mut numbers[..],
            &mut indices[..],
        );
    }
    answers
}

// Thins the items of a call that is not refused as a whole, on a scratch that is wiped first. A refusal is answered here and not by the
// calls, since a record of 64 answers beside another would take more stack than a call may.
fn thin_tested(
    tested: Result<(), Refusal>,
    matrix: &[f64],
    bits: &[u8],
    m: usize,
    n: usize,
    items: usize,
    weights: &[f64],
    seeds: &[u64],
    editions: &[u32],
    rules: &[u32],
    allowances: &[f64],
    limits: &[u64],
    output: &mut [f64],
    numbers: &mut [f64],
    indices: &mut [u32],
) -> Answers
    requires { Tested (number_in tested) matrix.now bits.now m n items (listed weights.now seeds.now editions.now rules.now
        allowances.now limits.now) (length output.old) (length numbers.old) (length indices.old) }
    ensures { AllThinned (number_in tested) (lent_as matrix.now bits.now m n) m n items
        (listed weights.now seeds.now editions.now
        rules.now allowances.now limits.now) output.old numbers.old
        indices.old result output.new numbers.new indices.new }
{
    match tested {
        Err(refusal) => no_answers(refusal.number()),
        Ok(()) => {
            fill(&mut numbers[..], 0.0);
            fill(&mut indices[..], 0);
            thin_items(
                matrix, bits, m, n, items, weights, seeds, editions, rules, allowances, limits,
                output, numbers, indices,
            )
        }
    }
}

// Thins each item as its job says, all on one matrix.
pub fn thin_all(
    matrix: &[f64],
    m: usize,
    n: usize,
    items: usize,
    weights: &[f64],
    seeds: &[u64],
    editions: &[u32],
    rules: &[u32],
    allowances: &[f64],
    limits: &[u64],
    output: &mut [f64],
    numbers: &mut [f64],
    indices: &mut [u32],
) -> Answers
    ensures { ThinnedAll matrix.now m n items (listed weights.now seeds.now editions.now
        rules.now allowances.now limits.now) output.old numbers.old
        indices.old result output.new numbers.new indices.new }
{
    let tested = whole_fault(
        items,
        matrix,
        m,
        n,
        weights.len(),
        seeds.len(),
        editions.len(),
        rules.len(),
        allowances.len(),
        limits.len(),
        output.len(),
        numbers.len(),
        indices.len(),
    );
    let none = [0u8; 0];
    thin_tested(
        tested,
        matrix,
        &none[..],
        m,
        n,
        items,
        weights,
        seeds,
        editions,
        rules,
        allowances,
        limits,
        output,
        numbers,
        indices,
    )
}

// The same on a matrix of votes, one bit a margin.
pub fn thin_all_bits(
    bits: &[u8],
    m: usize,
    n: usize,
    items: usize,
    weights: &[f64],
    seeds: &[u64],
    editions: &[u32],
    rules: &[u32],
    allowances: &[f64],
    limits: &[u64],
    output: &mut [f64],
    numbers: &mut [f64],
    indices: &mut [u32],
) -> Answers
    ensures { BitsThinnedAll bits.now m n items (listed weights.now seeds.now
        editions.now rules.now allowances.now limits.now) output.old
        numbers.old indices.old result output.new numbers.new indices.new }
{
    let tested = bits_whole_fault(
        items,
        bits,
        m,
        n,
        weights.len(),
        seeds.len(),
        editions.len(),
        rules.len(),
        allowances.len(),
        limits.len(),
        output.len(),
        numbers.len(),
        indices.len(),
    );
    let none = [0.0f64; 0];
    thin_tested(
        tested,
        &none[..],
        bits,
        m,
        n,
        items,
        weights,
        seeds,
        editions,
        rules,
        allowances,
        limits,
        output,
        numbers,
        indices,
    )
}
