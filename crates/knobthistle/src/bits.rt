// The calls on a matrix of votes, one bit a margin, as C sees them.
ghost use Rattle.draw.specs.SplitMix.{seeded};
ghost use Rattle.faults.specs.Faults.{rule_named};
ghost use Rattle.rules.specs.declared.Rule.TheVariants.{Target, Within};
ghost use Rattle.bitfaults.specs.Ballots.{BitsThinned};
ghost use Rattle.items.specs.Items.{listed};
ghost use Rattle.items.specs.All.{BitsThinnedAll};
ghost use Rattle.margins.specs.Answers.{ChangeGiven, TurnedGiven};
ghost use Rattle.pollfaults.specs.Polls.{BitsColored, bits_change, bits_turned};
ghost use Rattle.interface.specs.Caps.{cap_of};

use answers::Answer;
use ballots::{sparsify_bits, sparsify_within_bits, thin_bits};
use batch::thin_all_bits;
use colorfaults::Colored;
use faults::named_rule;
use interface::cap_of;
use items::Answers;
use polls::{discrepancy_coloring_bits, max_margin_change_bits, turned_words_bits};
use sparsification::Job;

// The largest change of a margin, written to `change`; the number.
#[unsafe(no_mangle)]
pub extern "C" fn knob_max_margin_change_bits(
    bits: &[u8],
    m: usize,
    n: usize,
    before: &[f64],
    after: &[f64],
    change: &mut f64,
) -> u64
    ensures { ChangeGiven (bits_change bits.now m n before.now after.now) result change.new }
{
    let a = max_margin_change_bits(bits, m, n, before, after);
    *change = a.change;
    a.number
}

// How many words turn at their thresholds, written to `count`; the number.
#[unsafe(no_mangle)]
pub extern "C" fn knob_turned_words_bits(
    bits: &[u8],
    m: usize,
    n: usize,
    before: &[f64],
    after: &[f64],
    thresholds: &[f64],
    count: &mut u64,
) -> u64
    ensures { TurnedGiven (bits_turned bits.now m n before.now after.now thresholds.now) result
        count.new }
{
    let a = turned_words_bits(bits, m, n, before, after, thresholds);
    *count = a.count;
    a.number
}

// Colours the columns of a matrix of votes.
#[unsafe(no_mangle)]
pub extern "C" fn knob_discrepancy_coloring_bits(
    bits: &[u8],
    m: usize,
    n: usize,
    seed: u64,
    output: &mut [i8],
    numbers: &mut [f64],
    indices: &mut [u32],
) -> Colored
    ensures { BitsColored bits.now m n seed output.old numbers.old
        indices.old result output.new numbers.new indices.new }
{
    discrepancy_coloring_bits(bits, m, n, seed, output, numbers, indices)
}

// Thins to at most `target` nonzero entries.
#[unsafe(no_mangle)]
pub extern "C" fn knob_sparsify_bits(
    bits: &[u8],
    m: usize,
    n: usize,
    weights: &[f64],
    seed: u64,
    edition: u32,
    target: usize,
    output: &mut [f64],
    numbers: &mut [f64],
    indices: &mut [u32],
) -> Answer
    ensures { BitsThinned (Target target) (seeded seed edition) bits.now m n weights.now
        output.old numbers.old indices.old result output.new numbers.new
        indices.new }
{
    sparsify_bits(
        bits, m, n, weights, seed, edition, target, output, numbers, indices,
    )
}

// Thins within an allowance, and as far as the cap asks.
#[unsafe(no_mangle)]
pub extern "C" fn knob_sparsify_within_bits(
    bits: &[u8],
    m: usize,
    n: usize,
    weights: &[f64],
    seed: u64,
    edition: u32,
    allowance: f64,
    capped: u32,
    cap: usize,
    output: &mut [f64],
    numbers: &mut [f64],
    indices: &mut [u32],
) -> Answer
    ensures { BitsThinned (Within allowance (cap_of capped cap)) (seeded seed edition) bits.now m n
        weights.now output.old numbers.old indices.old result output.new
        numbers.new indices.new }
{
    sparsify_within_bits(
        bits,
        m,
        n,
        weights,
        seed,
        edition,
        allowance,
        cap_of(capped, cap),
        output,
        numbers,
        indices,
    )
}

// Thins by the rule that a number names.
#[unsafe(no_mangle)]
pub extern "C" fn knob_thin_bits(
    bits: &[u8],
    m: usize,
    n: usize,
    weights: &[f64],
    seed: u64,
    edition: u32,
    rule: u32,
    allowance: f64,
    limit: usize,
    output: &mut [f64],
    numbers: &mut [f64],
    indices: &mut [u32],
) -> Answer
    ensures { BitsThinned (rule_named rule allowance limit) (seeded seed edition) bits.now m n weights.now
        output.old numbers.old indices.old result output.new numbers.new
        indices.new }
{
    thin_bits(
        bits,
        m,
        n,
        weights,
        Job {
            seed,
            edition,
            rule: named_rule(rule, allowance, limit),
        },
        output,
        numbers,
        indices,
    )
}

// Thins each item as its job says, all on one matrix of votes.
#[unsafe(no_mangle)]
pub extern "C" fn knob_thin_all_bits(
    bits: &[u8],
    m: usize,
    n: usize,
    items: usize,
    weights: &[f64],
    seeds: &[u64],
    editions: &[u32],
    rules: &[u32],
    allowances: &[f64],
    limits: &[u64],
    output: &mut [f64],
    numbers: &mut [f64],
    indices: &mut [u32],
) -> Answers
    ensures { BitsThinnedAll bits.now m n items (listed weights.now seeds.now
        editions.now rules.now allowances.now limits.now) output.old
        numbers.old indices.old result output.new numbers.new indices.new }
{
    thin_all_bits(
        bits, m, n, items, weights, seeds, editions, rules, allowances, limits, output, numbers,
        indices,
    )
}
