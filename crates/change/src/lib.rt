// How far the margins move between two weight vectors, at the worst row.
#![tactic(auto)]

ghost use Rattle.std.specs.Prelude.{◌≡◌, ◌≤◌, ◌<◌, ◌+◌, ◌%◌, max, length, unwrap_or, IfSome};
ghost use Rattle.seq.specs.Lists.{tabulate};
ghost use Rattle.seq.specs.Sums.{at};
ghost use Rattle.limits.specs.Reading.{read_of};
ghost use Rattle.change.specs.Margins.{change_to, max_change};
ghost use Rattle.rows.specs.Compared.{Compared};
ghost use Rattle.change.specs.Largest.{max_abs_from};
ghost use Rattle.change.specs.Unmoved.{Unmoved, Differs};

use ieee::{abs, larger};
use rows::{add_rows, add_two_rows, block_length};
use seq::fill;

// The next place from `from` on at which the weights differ.
fn next_moved(before: &[f64], after: &[f64], from: usize) -> Option<usize>
    requires { length after.now ≡ length before.now }
    ensures same { Unmoved before.now after.now from
        (unwrap_or result (max from (length before.now))) }
    ensures moved { IfSome result (λ j. (j < length before.now) × Differs before.now after.now j) }
{
    (from..before.len()).find(|j| before[*j] - after[*j] != 0.0)
}

// The changes of the rows from `from` on, as many as the block holds, by two columns at a time.
pub fn changes_into(
    block: &mut [f64],
    from: usize,
    matrix: &[f64],
    bits: &[u8],
    n: usize,
    before: &[f64],
    after: &[f64],
)
    requires { Compared matrix.now bits.now n before.now after.now × (from + length block.old ≤ n) × (from % 8 ≡ 0) }
    ensures { block.new ≡ tabulate (λ i. change_to (read_of matrix.now bits.now n) before.now
        after.now (from + i) (length before.now)) (length block.old) }
{
    fill(block, 0.0);
    let mut next = next_moved(before, after, 0);
    while let Some(j) = next {
        let s = before[j] - after[j];
        let Some(p) = next_moved(before, after, j + 1) else {
            add_rows(block, from, matrix, bits, n, j, s);
            return;
        };
        let t = before[p] - after[p];
        add_two_rows(block, from, matrix, bits, n, j, s, p, t);
        next = next_moved(before, after, p + 1);
    }
}

// The largest magnitude, from what it is so far.
fn largest_from(most: f64, block: &[f64]) -> f64
    ensures { result ≡ max_abs_from most (at block.now) (length block.now) }
{
    block.iter().fold(most, |r, x| larger(r, abs(*x)))
}

// The largest change of a margin, as many rows at a time as the block holds.
fn largest_change(
    block: &mut [f64],
    matrix: &[f64],
    bits: &[u8],
    n: usize,
    before: &[f64],
    after: &[f64],
) -> f64
    requires { Compared matrix.now bits.now n before.now after.now × (0 < length block.old) × (length block.old % 8 ≡ 0) }
    ensures { result ≡ max_change (read_of matrix.now bits.now n) (length before.now) n
        before.now after.now }
{
    let size = block.len();
    let mut most = 0.0;
    for from in (0..n).step_by(size) {
        let k = block_length(from, n, size);
        changes_into(&mut block[..k], from, matrix, bits, n, before, after);
        most = largest_from(most, &block[..k]);
    }
    most
}

// The largest change of a margin. A block is cleared when it is made, so that few rows have a small one.
pub fn change_of(matrix: &[f64], bits: &[u8], n: usize, before: &[f64], after: &[f64]) -> f64
    requires { Compared matrix.now bits.now n before.now after.now }
    ensures { result ≡ max_change (read_of matrix.now bits.now n) (length before.now) n
        before.now after.now }
{
    if n <= 64 {
        let mut block = [0.0f64; 64];
        return largest_change(&mut block[..], matrix, bits, n, before, after);
    }
    let mut block = [0.0f64; 512];
    largest_change(&mut block[..], matrix, bits, n, before, after)
}
