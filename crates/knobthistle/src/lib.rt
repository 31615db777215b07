// The calls of the C interface, which include/knobthistle.h declares. knobthistle_c has them in the archive; a Rattle crate calls them here.
#![tactic(auto)]

mod bits;

ghost use Rattle.std.specs.Prelude.{◌≡◌};
ghost use Rattle.root.specs.Root.{sqrt_of};
ghost use Rattle.draw.specs.SplitMix.{seeded};
ghost use Rattle.draw.specs.Gaussian.{ln_of_draw, cos_of_draw};
ghost use Rattle.colorfaults.specs.Discrepancy.{DiscrepancyColored};
ghost use Rattle.interface.specs.Version.{version_number};
ghost use Rattle.interface.specs.Caps.{cap_of};
ghost use Rattle.interface.specs.Draws.{UniformDrawn, GaussianDrawn};
ghost use Rattle.answers.specs.Answers.{Thinned};
ghost use Rattle.items.specs.Items.{listed};
ghost use Rattle.items.specs.All.{ThinnedAll};
ghost use Rattle.faults.specs.Faults.{rule_named};
ghost use Rattle.votefaults.specs.Votes.{VotesThinned};
ghost use Rattle.rules.specs.declared.Rule.TheVariants.{Target, Within};
ghost use Rattle.margins.specs.Answers.{change_answer, turned_answer, ChangeGiven, TurnedGiven};
ghost use Rattle.sheet.specs.Answer.{Answered};
ghost use Rattle.gathering.specs.Lines.{no_lines, after};
ghost use Rattle.keeping.specs.Saved.{salvaged, Laid};
ghost use Rattle.writing.specs.Writing.{WroteFor};
ghost use Rattle.readback.specs.ReadingBack.{ReadBack};
ghost use Rattle.movefaults.specs.Answers.{Listed};
ghost use Rattle.words.specs.Words.{moved_answer};

pub use answers::Answer;
use batch::thin_all;
pub use bits::{
    knob_discrepancy_coloring_bits, knob_max_margin_change_bits, knob_sparsify_bits,
    knob_sparsify_within_bits, knob_thin_all_bits, knob_thin_bits, knob_turned_words_bits,
};
pub use colorfaults::Colored;
use discrepancy::discrepancy_coloring;
use faults::named_rule;
use interface::{cap_of, next_gaussian, next_uniform, version};
pub use items::Answers;
use margins::{max_margin_change, turned_words};
use moving::{moved, moved_again};
use readback::read_sheet;
use salvaging::salvage;
use sheet::thin_sheet;
use sparsification::{Job, sparsify, sparsify_within};
use voting::thin_votes;
use words::moved_sheet;
use writing::write_sheet;

// The version of the library: that of the file VERSION.
#[unsafe(no_mangle)]
pub extern "C" fn knob_version() -> u64
    ensures { result ≡ version_number 0 1 0 }
{
    version()
}

// The next uniform draw of edition 1.
#[unsafe(no_mangle)]
pub extern "C" fn knob_uniform(state: &mut u64) -> f64
    ensures { UniformDrawn state.old 1 result state.new }
{
    next_uniform(state, 1)
}

// The next uniform draw of edition 2.
#[unsafe(no_mangle)]
pub extern "C" fn knob_uniform_2(state: &mut u64) -> f64
    ensures { UniformDrawn state.old 2 result state.new }
{
    next_uniform(state, 2)
}

// The next Gaussian draw of edition 1.
#[unsafe(no_mangle)]
pub extern "C" fn knob_gaussian(state: &mut u64) -> f64
    ensures { GaussianDrawn state.old 1 result state.new }
{
    next_gaussian(state, 1)
}

// The next Gaussian draw of edition 2.
#[unsafe(no_mangle)]
pub extern "C" fn knob_gaussian_2(state: &mut u64) -> f64
    ensures { GaussianDrawn state.old 2 result state.new }
{
    next_gaussian(state, 2)
}

// IEEE 754's square root.
#[unsafe(no_mangle)]
pub extern "C" fn knob_sqrt(x: f64) -> f64
    ensures { result ≡ sqrt_of x }
{
    root::sqrt(x)
}

// The logarithm of the uniform of this output of the generator, by edition 1.
#[unsafe(no_mangle)]
pub extern "C" fn knob_log_draw(word: u64) -> f64
    ensures { result ≡ ln_of_draw 1 word }
{
    draw::ln_of(1, word)
}

// The same by edition 2.
#[unsafe(no_mangle)]
pub extern "C" fn knob_log_draw_2(word: u64) -> f64
    ensures { result ≡ ln_of_draw 2 word }
{
    draw::ln_of(2, word)
}

// The cosine of TAU times the uniform of this output of the generator, by edition 1.
#[unsafe(no_mangle)]
pub extern "C" fn knob_cos_draw(word: u64) -> f64
    ensures { result ≡ cos_of_draw 1 word }
{
    draw::cos_of(1, word)
}

// The same by edition 2.
#[unsafe(no_mangle)]
pub extern "C" fn knob_cos_draw_2(word: u64) -> f64
    ensures { result ≡ cos_of_draw 2 word }
{
    draw::cos_of(2, word)
}

// The largest change of a margin, written to `change`; the number.
#[unsafe(no_mangle)]
pub extern "C" fn knob_max_margin_change(
    matrix: &[f64],
    m: usize,
    n: usize,
    before: &[f64],
    after: &[f64],
    change: &mut f64,
) -> u64
    ensures { ChangeGiven (change_answer matrix.now m n before.now after.now) result
        change.new }
{
    let a = max_margin_change(matrix, m, n, before, after);
    *change = a.change;
    a.number
}

// How many words turn at their thresholds, written to `count`; the number.
#[unsafe(no_mangle)]
pub extern "C" fn knob_turned_words(
    matrix: &[f64],
    m: usize,
    n: usize,
    before: &[f64],
    after: &[f64],
    thresholds: &[f64],
    count: &mut u64,
) -> u64
    ensures { TurnedGiven
        (turned_answer matrix.now m n before.now after.now thresholds.now) result
        count.new }
{
    let a = turned_words(matrix, m, n, before, after, thresholds);
    *count = a.count;
    a.number
}

// Colours the columns of a matrix.
#[unsafe(no_mangle)]
pub extern "C" fn knob_discrepancy_coloring(
    matrix: &[f64],
    m: usize,
    n: usize,
    seed: u64,
    output: &mut [i8],
    numbers: &mut [f64],
    indices: &mut [u32],
) -> Colored
    ensures { DiscrepancyColored matrix.now m n seed output.old numbers.old
        indices.old result output.new numbers.new indices.new }
{
    discrepancy_coloring(matrix, m, n, seed, output, numbers, indices)
}

// Thins to at most `target` nonzero entries.
#[unsafe(no_mangle)]
pub extern "C" fn knob_sparsify(
    matrix: &[f64],
    m: usize,
    n: usize,
    weights: &[f64],
    seed: u64,
    edition: u32,
    target: usize,
    output: &mut [f64],
    numbers: &mut [f64],
    indices: &mut [u32],
) -> Answer
    ensures { Thinned (Target target) (seeded seed edition) matrix.now m n weights.now output.old
        numbers.old indices.old result output.new numbers.new indices.new }
{
    sparsify(
        matrix, m, n, weights, seed, edition, target, output, numbers, indices,
    )
}

// Thins within an allowance, and as far as the cap asks.
#[unsafe(no_mangle)]
pub extern "C" fn knob_sparsify_within(
    matrix: &[f64],
    m: usize,
    n: usize,
    weights: &[f64],
    seed: u64,
    edition: u32,
    allowance: f64,
    capped: u32,
    cap: usize,
    output: &mut [f64],
    numbers: &mut [f64],
    indices: &mut [u32],
) -> Answer
    ensures { Thinned (Within allowance (cap_of capped cap)) (seeded seed edition) matrix.now m n weights.now
        output.old numbers.old indices.old result output.new numbers.new
        indices.new }
{
    sparsify_within(
        matrix,
        m,
        n,
        weights,
        seed,
        edition,
        allowance,
        cap_of(capped, cap),
        output,
        numbers,
        indices,
    )
}

// Thins each item as its job says, all on one matrix.
#[unsafe(no_mangle)]
pub extern "C" fn knob_thin_all(
    matrix: &[f64],
    m: usize,
    n: usize,
    items: usize,
    weights: &[f64],
    seeds: &[u64],
    editions: &[u32],
    rules: &[u32],
    allowances: &[f64],
    limits: &[u64],
    output: &mut [f64],
    numbers: &mut [f64],
    indices: &mut [u32],
) -> Answers
    ensures { ThinnedAll matrix.now m n items (listed weights.now seeds.now editions.now
        rules.now allowances.now limits.now) output.old numbers.old
        indices.old result output.new numbers.new indices.new }
{
    thin_all(
        matrix, m, n, items, weights, seeds, editions, rules, allowances, limits, output, numbers,
        indices,
    )
}

// Thins the columns of margins, label times confidence, and packs what is left: the kept columns' numbers and their weights.
#[unsafe(no_mangle)]
pub extern "C" fn knob_thin_votes(
    confidences: &[f64],
    labels: &[i8],
    m: usize,
    n: usize,
    weights: &[f64],
    seed: u64,
    edition: u32,
    rule: u32,
    allowance: f64,
    limit: usize,
    columns: &mut [u32],
    kept: &mut [f64],
    numbers: &mut [f64],
    indices: &mut [u32],
) -> Answer
    ensures { VotesThinned (rule_named rule allowance limit) (seeded seed edition) confidences.now
        labels.now m n weights.now columns.old kept.old numbers.old
        indices.old result columns.new kept.new numbers.new indices.new }
{
    thin_votes(
        confidences,
        labels,
        m,
        n,
        weights,
        Job {
            seed,
            edition,
            rule: named_rule(rule, allowance, limit),
        },
        columns,
        kept,
        numbers,
        indices,
    )
}

// The answer of a sheet in a lent buffer: its length, or 0 where it does not fit, which leaves the buffer as it was.
#[unsafe(no_mangle)]
pub extern "C" fn knob_thin_sheet(text: &[u8], answer: &mut [u8]) -> usize
    ensures { Answered text.now answer.old result answer.new }
{
    thin_sheet(text, answer)
}

// Writes the text of a sheet in a lent buffer, doubles by their bits; the number. How long the text is goes to `length`, 0 on a refusal.
#[unsafe(no_mangle)]
pub extern "C" fn knob_write_sheet(
    matrix: &[u64],
    m: usize,
    n: usize,
    weights: &[u64],
    seed: u64,
    edition: u32,
    rule: u32,
    allowance: u64,
    limit: u64,
    text: &mut [u8],
    length: &mut usize,
) -> u64
    ensures { WroteFor matrix.now m n weights.now seed edition rule allowance limit text.old
        (record { number = result; length = length.new }) text.new }
{
    let written = write_sheet(
        matrix, m, n, weights, seed, edition, rule, allowance, limit, text,
    );
    *length = written.length;
    written.number
}

// Reads a sheet as bits into lent lists; 0, or the number of its first wrong line, or the largest number where a list is too short.
#[unsafe(no_mangle)]
pub extern "C" fn knob_read_sheet(
    text: &[u8],
    matrix: &mut [u64],
    weights: &mut [u64],
    first: &mut [u64],
) -> u64
    ensures { ReadBack text.now matrix.old weights.old first.old result matrix.new
        weights.new first.new }
{
    read_sheet(text, matrix, weights, first)
}

// What is good of a damaged sheet, in a lent buffer: its length, or 0 where it does not fit, which leaves the buffer as it was.
#[unsafe(no_mangle)]
pub extern "C" fn knob_salvage(text: &[u8], answer: &mut [u8]) -> usize
    ensures { Laid (salvaged (after no_lines text.now)) answer.old result answer.new }
{
    salvage(text, answer)
}

// Which word moved: the rows by the magnitude of their changes, and the changes beside them.
#[unsafe(no_mangle)]
pub extern "C" fn knob_moved(
    matrix: &[f64],
    m: usize,
    n: usize,
    before: &[f64],
    after: &[f64],
    rows: &mut [u32],
    changes: &mut [f64],
) -> u64
    ensures { Listed
        matrix.now m n before.now after.now rows.old changes.old
        result rows.new changes.new }
{
    moved(matrix, m, n, before, after, rows, changes)
}

// The same list, brought up to date; the same whatever the lists held.
#[unsafe(no_mangle)]
pub extern "C" fn knob_moved_again(
    matrix: &[f64],
    m: usize,
    n: usize,
    before: &[f64],
    after: &[f64],
    rows: &mut [u32],
    changes: &mut [f64],
) -> u64
    ensures { Listed
        matrix.now m n before.now after.now rows.old changes.old
        result rows.new changes.new }
{
    moved_again(matrix, m, n, before, after, rows, changes)
}

// The answer of a sheet with a line for each word that moved, in a lent buffer: its length, or 0 where it does not fit, which leaves the
// buffer as it was.
#[unsafe(no_mangle)]
pub extern "C" fn knob_moved_sheet(text: &[u8], answer: &mut [u8]) -> usize
    ensures { Laid (moved_answer text.now) answer.old result answer.new }
{
    moved_sheet(text, answer)
}
