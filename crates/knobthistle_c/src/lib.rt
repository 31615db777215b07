// The archive: the calls of knobthistle under their own names, each with the clauses that it has there. include/knobthistle.h declares them.
#![tactic(auto)]

mod bits;

ghost use Rattle.std.specs.Prelude.{◌≡◌};
ghost use Rattle.knobthistle.specs.Calls;

use knobthistle::{Answer, Answers, Colored};

// The version of the library: that of the file VERSION.
#[unsafe(no_mangle)]
pub extern "C" fn knob_version() -> u64
    ensures { result ≡ Calls.version_number 0 1 0 }
{
    knobthistle::knob_version()
}

// The next uniform draw of edition 1.
#[unsafe(no_mangle)]
pub extern "C" fn knob_uniform(state: &mut u64) -> f64
    ensures { Calls.UniformDrawn state.old 1 result state.new }
{
    knobthistle::knob_uniform(state)
}

// The next uniform draw of edition 2.
#[unsafe(no_mangle)]
pub extern "C" fn knob_uniform_2(state: &mut u64) -> f64
    ensures { Calls.UniformDrawn state.old 2 result state.new }
{
    knobthistle::knob_uniform_2(state)
}

// The next Gaussian draw of edition 1.
#[unsafe(no_mangle)]
pub extern "C" fn knob_gaussian(state: &mut u64) -> f64
    ensures { Calls.GaussianDrawn state.old 1 result state.new }
{
    knobthistle::knob_gaussian(state)
}

// The next Gaussian draw of edition 2.
#[unsafe(no_mangle)]
pub extern "C" fn knob_gaussian_2(state: &mut u64) -> f64
    ensures { Calls.GaussianDrawn state.old 2 result state.new }
{
    knobthistle::knob_gaussian_2(state)
}

// IEEE 754's square root.
#[unsafe(no_mangle)]
pub extern "C" fn knob_sqrt(x: f64) -> f64
    ensures { result ≡ Calls.sqrt_of x }
{
    knobthistle::knob_sqrt(x)
}

// The logarithm of the uniform of this output of the generator, by edition 1.
#[unsafe(no_mangle)]
pub extern "C" fn knob_log_draw(word: u64) -> f64
    ensures { result ≡ Calls.ln_of_draw 1 word }
{
    knobthistle::knob_log_draw(word)
}

// The same by edition 2.
#[unsafe(no_mangle)]
pub extern "C" fn knob_log_draw_2(word: u64) -> f64
    ensures { result ≡ Calls.ln_of_draw 2 word }
{
    knobthistle::knob_log_draw_2(word)
}

// The cosine of TAU times the uniform of this output of the generator, by edition 1.
#[unsafe(no_mangle)]
pub extern "C" fn knob_cos_draw(word: u64) -> f64
    ensures { result ≡ Calls.cos_of_draw 1 word }
{
    knobthistle::knob_cos_draw(word)
}

// The same by edition 2.
#[unsafe(no_mangle)]
pub extern "C" fn knob_cos_draw_2(word: u64) -> f64
    ensures { result ≡ Calls.cos_of_draw 2 word }
{
    knobthistle::knob_cos_draw_2(word)
}

// The largest change of a margin, written to `change`; the number.
#[unsafe(no_mangle)]
pub extern "C" fn knob_max_margin_change(
    matrix: &[f64],
    m: usize,
    n: usize,
    before: &[f64],
    after: &[f64],
    change: &mut f64,
) -> u64
    ensures { Calls.ChangeGiven (Calls.change_answer matrix.now m n before.now after.now) result
        change.new }
{
    knobthistle::knob_max_margin_change(matrix, m, n, before, after, change)
}

// How many words turn at their thresholds, written to `count`; the number.
#[unsafe(no_mangle)]
pub extern "C" fn knob_turned_words(
    matrix: &[f64],
    m: usize,
    n: usize,
    before: &[f64],
    after: &[f64],
    thresholds: &[f64],
    count: &mut u64,
) -> u64
    ensures { Calls.TurnedGiven
        (Calls.turned_answer matrix.now m n before.now after.now thresholds.now) result
        count.new }
{
    knobthistle::knob_turned_words(matrix, m, n, before, after, thresholds, count)
}

// Colours the columns of a matrix.
#[unsafe(no_mangle)]
pub extern "C" fn knob_discrepancy_coloring(
    matrix: &[f64],
    m: usize,
    n: usize,
    seed: u64,
    output: &mut [i8],
    numbers: &mut [f64],
    indices: &mut [u32],
) -> Colored
    ensures { Calls.DiscrepancyColored matrix.now m n seed output.old numbers.old
        indices.old result output.new numbers.new indices.new }
{
    knobthistle::knob_discrepancy_coloring(matrix, m, n, seed, output, numbers, indices)
}

// Thins to at most `target` nonzero entries.
#[unsafe(no_mangle)]
pub extern "C" fn knob_sparsify(
    matrix: &[f64],
    m: usize,
    n: usize,
    weights: &[f64],
    seed: u64,
    edition: u32,
    target: usize,
    output: &mut [f64],
    numbers: &mut [f64],
    indices: &mut [u32],
) -> Answer
    ensures { Calls.Thinned (Calls.Target target) (Calls.seeded seed edition) matrix.now m n weights.now output.old
        numbers.old indices.old result output.new numbers.new indices.new }
{
    knobthistle::knob_sparsify(
        matrix, m, n, weights, seed, edition, target, output, numbers, indices,
    )
}

// Thins within an allowance, and as far as the cap asks.
#[unsafe(no_mangle)]
pub extern "C" fn knob_sparsify_within(
    matrix: &[f64],
    m: usize,
    n: usize,
    weights: &[f64],
    seed: u64,
    edition: u32,
    allowance: f64,
    capped: u32,
    cap: usize,
    output: &mut [f64],
    numbers: &mut [f64],
    indices: &mut [u32],
) -> Answer
    ensures { Calls.Thinned (Calls.Within allowance (Calls.cap_of capped cap)) (Calls.seeded seed edition) matrix.now m n weights.now
        output.old numbers.old indices.old result output.new numbers.new
        indices.new }
{
    knobthistle::knob_sparsify_within(
        matrix, m, n, weights, seed, edition, allowance, capped, cap, output, numbers, indices,
    )
}

// Thins each item as its job says, all on one matrix.
#[unsafe(no_mangle)]
pub extern "C" fn knob_thin_all(
    matrix: &[f64],
    m: usize,
    n: usize,
    items: usize,
    weights: &[f64],
    seeds: &[u64],
    editions: &[u32],
    rules: &[u32],
    allowances: &[f64],
    limits: &[u64],
    output: &mut [f64],
    numbers: &mut [f64],
    indices: &mut [u32],
) -> Answers
    ensures { Calls.ThinnedAll matrix.now m n items (Calls.listed weights.now seeds.now editions.now
        rules.now allowances.now limits.now) output.old numbers.old
        indices.old result output.new numbers.new indices.new }
{
    knobthistle::knob_thin_all(
        matrix, m, n, items, weights, seeds, editions, rules, allowances, limits, output, numbers,
        indices,
    )
}

// Thins the columns of margins, label times confidence, and packs what is left: the kept columns' numbers and their weights.
#[unsafe(no_mangle)]
pub extern "C" fn knob_thin_votes(
    confidences: &[f64],
    labels: &[i8],
    m: usize,
    n: usize,
    weights: &[f64],
    seed: u64,
    edition: u32,
    rule: u32,
    allowance: f64,
    limit: usize,
    columns: &mut [u32],
    kept: &mut [f64],
    numbers: &mut [f64],
    indices: &mut [u32],
) -> Answer
    ensures { Calls.VotesThinned (Calls.rule_named rule allowance limit) (Calls.seeded seed edition) confidences.now
        labels.now m n weights.now columns.old kept.old numbers.old
        indices.old result columns.new kept.new numbers.new indices.new }
{
    knobthistle::knob_thin_votes(
        confidences,
        labels,
        m,
        n,
        weights,
        seed,
        edition,
        rule,
        allowance,
        limit,
        columns,
        kept,
        numbers,
        indices,
    )
}

// The answer of a sheet in a lent buffer: its length, or 0 where it does not fit, which leaves the buffer as it was.
#[unsafe(no_mangle)]
pub extern "C" fn knob_thin_sheet(text: &[u8], answer: &mut [u8]) -> usize
    ensures { Calls.Answered text.now answer.old result answer.new }
{
    knobthistle::knob_thin_sheet(text, answer)
}

// Writes the text of a sheet in a lent buffer, doubles by their bits; the number. How long the text is goes to `length`, 0 on a refusal.
#[unsafe(no_mangle)]
pub extern "C" fn knob_write_sheet(
    matrix: &[u64],
    m: usize,
    n: usize,
    weights: &[u64],
    seed: u64,
    edition: u32,
    rule: u32,
    allowance: u64,
    limit: u64,
    text: &mut [u8],
    length: &mut usize,
) -> u64
    ensures { Calls.WroteFor matrix.now m n weights.now seed edition rule allowance limit text.old
        (record { number = result; length = length.new }) text.new }
{
    knobthistle::knob_write_sheet(
        matrix, m, n, weights, seed, edition, rule, allowance, limit, text, length,
    )
}

// Reads a sheet as bits into lent lists; 0, or the number of its first wrong line, or the largest number where a list is too short.
#[unsafe(no_mangle)]
pub extern "C" fn knob_read_sheet(
    text: &[u8],
    matrix: &mut [u64],
    weights: &mut [u64],
    first: &mut [u64],
) -> u64
    ensures { Calls.ReadBack text.now matrix.old weights.old first.old result matrix.new
        weights.new first.new }
{
    knobthistle::knob_read_sheet(text, matrix, weights, first)
}

// What is good of a damaged sheet, in a lent buffer: its length, or 0 where it does not fit, which leaves the buffer as it was.
#[unsafe(no_mangle)]
pub extern "C" fn knob_salvage(text: &[u8], answer: &mut [u8]) -> usize
    ensures { Calls.Laid (Calls.salvaged (Calls.after Calls.no_lines text.now)) answer.old result answer.new }
{
    knobthistle::knob_salvage(text, answer)
}

// Which word moved: the rows by the magnitude of their changes, and the changes beside them.
#[unsafe(no_mangle)]
pub extern "C" fn knob_moved(
    matrix: &[f64],
    m: usize,
    n: usize,
    before: &[f64],
    after: &[f64],
    rows: &mut [u32],
    changes: &mut [f64],
) -> u64
    ensures { Calls.Listed
        matrix.now m n before.now after.now rows.old changes.old
        result rows.new changes.new }
{
    knobthistle::knob_moved(matrix, m, n, before, after, rows, changes)
}

// The same list, brought up to date; the same whatever the lists held.
#[unsafe(no_mangle)]
pub extern "C" fn knob_moved_again(
    matrix: &[f64],
    m: usize,
    n: usize,
    before: &[f64],
    after: &[f64],
    rows: &mut [u32],
    changes: &mut [f64],
) -> u64
    ensures { Calls.Listed
        matrix.now m n before.now after.now rows.old changes.old
        result rows.new changes.new }
{
    knobthistle::knob_moved_again(matrix, m, n, before, after, rows, changes)
}

// The answer of a sheet with a line for each word that moved, in a lent buffer: its length, or 0 where it does not fit, which leaves the
// buffer as it was.
#[unsafe(no_mangle)]
pub extern "C" fn knob_moved_sheet(text: &[u8], answer: &mut [u8]) -> usize
    ensures { Calls.Laid (Calls.moved_answer text.now) answer.old result answer.new }
{
    knobthistle::knob_moved_sheet(text, answer)
}
