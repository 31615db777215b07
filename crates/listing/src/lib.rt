// The lines of the words that moved, written in a buffer.
#![tactic(auto)]

ghost use Rattle.std.specs.Prelude.{◌≡◌, ◌+◌, ◌≤◌, length};
ghost use Rattle.seq.specs.Sums.{plus_zero};
ghost use Rattle.fields.specs.Steps.{WroteOn};
ghost use Rattle.weights.specs.Weights.{normalized};
ghost use Rattle.wordlines.specs.Lines.{words_of};

use moving::moved;
use seq::copy;
use weights::normalize;
use wordlines::put_lines;

// Lists which word moved, and writes the list's lines.
fn put_changes(
    out: &mut [u8],
    at: usize,
    matrix: &[f64],
    m: usize,
    n: usize,
    before: &[f64],
    after: &[f64],
) -> usize
    requires { (n ≤ 64) × (at + 2752 ≤ length out.old) }
    ensures { WroteOn (words_of matrix.now m n before.now after.now) at out.old result
        out.new }
{
    let mut rows = [0u32; 64];
    let mut changes = [0.0f64; 64];
    let number = moved(
        matrix,
        m,
        n,
        before,
        after,
        &mut rows[..n],
        &mut changes[..n],
    );
    if number != 0 {
        return at;
    }
    put_lines(out, at, &rows[..n], &changes[..n])
}

// Writes the lines of the words that moved from the normalized weights to these.
pub fn put_moves(
    out: &mut [u8],
    at: usize,
    matrix: &[f64],
    m: usize,
    n: usize,
    weights: &[f64],
    after: &[f64],
) -> usize
    requires { (m ≤ 32) × (n ≤ 64) × (length weights.now ≡ m) × (at + 2752 ≤ length out.old) }
    ensures { WroteOn (words_of matrix.now m n (normalized plus_zero weights.now) after.now) at
        out.old result out.new }
{
    let mut before = [0.0f64; 32];
    copy(&mut before[..m], weights);
    normalize(&mut before[..m]);
    put_changes(out, at, matrix, m, n, &before[..m], after)
}
