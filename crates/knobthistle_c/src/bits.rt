// The calls on a matrix of votes, one bit a margin.
ghost use Rattle.knobthistle.specs.Calls;

use knobthistle::{Answer, Answers, Colored};

// The largest change of a margin, written to `change`; the number.
#[unsafe(no_mangle)]
pub extern "C" fn knob_max_margin_change_bits(
    bits: &[u8],
    m: usize,
    n: usize,
    before: &[f64],
    after: &[f64],
    change: &mut f64,
) -> u64
    ensures { Calls.ChangeGiven (Calls.bits_change bits.now m n before.now after.now) result change.new }
{
    knobthistle::knob_max_margin_change_bits(bits, m, n, before, after, change)
}

// How many words turn at their thresholds, written to `count`; the number.
#[unsafe(no_mangle)]
pub extern "C" fn knob_turned_words_bits(
    bits: &[u8],
    m: usize,
    n: usize,
    before: &[f64],
    after: &[f64],
    thresholds: &[f64],
    count: &mut u64,
) -> u64
    ensures { Calls.TurnedGiven (Calls.bits_turned bits.now m n before.now after.now thresholds.now) result
        count.new }
{
    knobthistle::knob_turned_words_bits(bits, m, n, before, after, thresholds, count)
}

// Colours the columns of a matrix of votes.
#[unsafe(no_mangle)]
pub extern "C" fn knob_discrepancy_coloring_bits(
    bits: &[u8],
    m: usize,
    n: usize,
    seed: u64,
    output: &mut [i8],
    numbers: &mut [f64],
    indices: &mut [u32],
) -> Colored
    ensures { Calls.BitsColored bits.now m n seed output.old numbers.old
        indices.old result output.new numbers.new indices.new }
{
    knobthistle::knob_discrepancy_coloring_bits(bits, m, n, seed, output, numbers, indices)
}

// Thins to at most `target` nonzero entries.
#[unsafe(no_mangle)]
pub extern "C" fn knob_sparsify_bits(
    bits: &[u8],
    m: usize,
    n: usize,
    weights: &[f64],
    seed: u64,
    edition: u32,
    target: usize,
    output: &mut [f64],
    numbers: &mut [f64],
    indices: &mut [u32],
) -> Answer
    ensures { Calls.BitsThinned (Calls.Target target) (Calls.seeded seed edition) bits.now m n weights.now
        output.old numbers.old indices.old result output.new numbers.new
        indices.new }
{
    knobthistle::knob_sparsify_bits(
        bits, m, n, weights, seed, edition, target, output, numbers, indices,
    )
}

// Thins within an allowance, and as far as the cap asks.
#[unsafe(no_mangle)]
pub extern "C" fn knob_sparsify_within_bits(
    bits: &[u8],
    m: usize,
    n: usize,
    weights: &[f64],
    seed: u64,
    edition: u32,
    allowance: f64,
    capped: u32,
    cap: usize,
    output: &mut [f64],
    numbers: &mut [f64],
    indices: &mut [u32],
) -> Answer
    ensures { Calls.BitsThinned (Calls.Within allowance (Calls.cap_of capped cap)) (Calls.seeded seed edition) bits.now m n
        weights.now output.old numbers.old indices.old result output.new
        numbers.new indices.new }
{
    knobthistle::knob_sparsify_within_bits(
        bits, m, n, weights, seed, edition, allowance, capped, cap, output, numbers, indices,
    )
}

// Thins by the rule that a number names.
#[unsafe(no_mangle)]
pub extern "C" fn knob_thin_bits(
    bits: &[u8],
    m: usize,
    n: usize,
    weights: &[f64],
    seed: u64,
    edition: u32,
    rule: u32,
    allowance: f64,
    limit: usize,
    output: &mut [f64],
    numbers: &mut [f64],
    indices: &mut [u32],
) -> Answer
    ensures { Calls.BitsThinned (Calls.rule_named rule allowance limit) (Calls.seeded seed edition) bits.now m n weights.now
        output.old numbers.old indices.old result output.new numbers.new
        indices.new }
{
    knobthistle::knob_thin_bits(
        bits, m, n, weights, seed, edition, rule, allowance, limit, output, numbers, indices,
    )
}

// Thins each item as its job says, all on one matrix of votes.
#[unsafe(no_mangle)]
pub extern "C" fn knob_thin_all_bits(
    bits: &[u8],
    m: usize,
    n: usize,
    items: usize,
    weights: &[f64],
    seeds: &[u64],
    editions: &[u32],
    rules: &[u32],
    allowances: &[f64],
    limits: &[u64],
    output: &mut [f64],
    numbers: &mut [f64],
    indices: &mut [u32],
) -> Answers
    ensures { Calls.BitsThinnedAll bits.now m n items (Calls.listed weights.now seeds.now
        editions.now rules.now allowances.now limits.now) output.old
        numbers.old indices.old result output.new numbers.new indices.new }
{
    knobthistle::knob_thin_all_bits(
        bits, m, n, items, weights, seeds, editions, rules, allowances, limits, output, numbers,
        indices,
    )
}
