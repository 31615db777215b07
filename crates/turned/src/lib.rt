// How many words turn between two weight vectors, each at its threshold.
#![tactic(auto)]

ghost use Rattle.std.specs.Prelude.{◌≡◌, ◌≤◌, ◌+◌, ◌%◌, length};
ghost use Rattle.seq.specs.Lists.{tabulate};
ghost use Rattle.limits.specs.Reading.{read_of};
ghost use Rattle.turned.specs.Turned.{margin_at, turned_count};
ghost use Rattle.turned.specs.BlocksTurned.{turned_in};
ghost use Rattle.rows.specs.Compared.{Lent, Compared};

use rows::{add_rows, block_length};
use seq::fill;

// The margins of the rows from `from` on.
fn margins_into(
    block: &mut [f64],
    from: usize,
    matrix: &[f64],
    bits: &[u8],
    n: usize,
    weights: &[f64],
)
    requires { Lent matrix.now bits.now (length weights.now) n × (from + length block.old ≤ n) × (from % 8 ≡ 0) }
    ensures { block.new ≡ tabulate (λ i. margin_at (read_of matrix.now bits.now n)
        (length weights.now) weights.now (from + i)) (length block.old) }
{
    fill(block, 0.0);
    for (j, w) in weights.iter().enumerate() {
        add_rows(block, from, matrix, bits, n, j, *w);
    }
}

// How many rows of two blocks turn, each at its threshold.
fn count_turned(before: &[f64], after: &[f64], thresholds: &[f64]) -> usize
    requires { (length after.now ≡ length before.now) × (length thresholds.now ≡ length before.now) }
    ensures { result ≡ turned_in before.now after.now thresholds.now }
{
    (0..before.len())
        .filter(|i| {
            let was = before[*i] > thresholds[*i];
            let is = after[*i] > thresholds[*i];
            was != is
        })
        .count()
}

// How many words turn.
pub fn turned_of(
    matrix: &[f64],
    bits: &[u8],
    n: usize,
    before: &[f64],
    after: &[f64],
    thresholds: &[f64],
) -> usize
    requires { Compared matrix.now bits.now n before.now after.now × (length thresholds.now ≡ n) }
    ensures { result ≡ turned_count (read_of matrix.now bits.now n) (length before.now) n
        before.now after.now thresholds.now }
{
    let mut was = [0.0f64; 64];
    let mut is = [0.0f64; 64];
    let mut turned = 0usize;
    for from in (0..n).step_by(64) {
        let k = block_length(from, n, 64);
        margins_into(&mut was[..k], from, matrix, bits, n, before);
        margins_into(&mut is[..k], from, matrix, bits, n, after);
        turned += count_turned(&was[..k], &is[..k], &thresholds[from..from + k]);
    }
    turned
}
