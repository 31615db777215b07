// How an entry is read: a column is chosen from the matrix and scaled; what it then does to a vector is in the crate reading.
#![tactic(auto)]

ghost use Rattle.std.specs.Prelude.{◌≡◌, [], ◌<◌, length};
ghost use Rattle.seq.specs.Lists.{tabulate};
ghost use Rattle.seq.specs.Sums.{plus_zero, at};
ghost use Rattle.chosen.specs.Rows.{row_of, row_norms, times};
ghost use Rattle.chosen.specs.Entries.{entry_of};
ghost use Rattle.chosen.specs.ChosenColumns.{Chosen};
ghost use Rattle.columns.specs.Kernels.{plus_column, plus_columns};

use chosen::{entry, next_live};
use columns::add_squares;
use linear::dot;
use paired::add_two_of;
use reading::{add_column_of, doubles_of};
use seq::fill;

// Row i, an entry for each column.
pub fn row_into(
    v: &mut [f64],
    matrix: &[f64],
    bits: &[u8],
    n: usize,
    cols: &[u32],
    scale: &[f64],
    i: usize,
)
    requires { Chosen matrix.now bits.now n cols.now scale.now n × (length v.old ≡ length cols.now) }
    ensures { v.new ≡ row_of (entry_of matrix.now bits.now n cols.now scale.now)
        (length cols.now) i }
{
    for (p, x) in v.iter_mut().enumerate() {
        *x = entry(matrix, bits, n, cols, scale, p, i);
    }
}

// acc, which has the sums over the columns before p, plus column p.
fn add_one_at(
    acc: &mut [f64],
    matrix: &[f64],
    bits: &[u8],
    n: usize,
    cols: &[u32],
    scale: &[f64],
    g: &[f64],
    p: usize,
)
    requires { Chosen matrix.now bits.now n cols.now scale.now (length acc.old) × (length g.now ≡ length cols.now) ×
        (p < length cols.now) }
    ensures { acc.new ≡ tabulate (plus_column
        (entry_of matrix.now bits.now n cols.now scale.now p) (at g.now p)
        acc.old) (length acc.old) }
{
    add_column_of(acc, matrix, bits, n, cols[p] as usize, scale[p], g[p]);
}

// acc plus columns p and q, in order.
fn add_two_at(
    acc: &mut [f64],
    matrix: &[f64],
    bits: &[u8],
    n: usize,
    cols: &[u32],
    scale: &[f64],
    g: &[f64],
    p: usize,
    q: usize,
)
    requires { Chosen matrix.now bits.now n cols.now scale.now (length acc.old) × (length g.now ≡ length cols.now)
        × (p < length cols.now)
        × (q < length cols.now) }
    ensures { acc.new ≡ tabulate (plus_columns
        (entry_of matrix.now bits.now n cols.now scale.now p) (at g.now p)
        (entry_of matrix.now bits.now n cols.now scale.now q) (at g.now q)
        acc.old) (length acc.old) }
{
    let c = cols[p] as usize;
    let d = cols[q] as usize;
    add_two_of(acc, matrix, bits, n, c, scale[p], g[p], d, scale[q], g[q]);
}

// The matrix times g, two columns at a time, without those that add nothing; each row's sum is in the columns' order.
pub fn times_into(
    acc: &mut [f64],
    matrix: &[f64],
    bits: &[u8],
    n: usize,
    cols: &[u32],
    scale: &[f64],
    g: &[f64],
)
    requires { Chosen matrix.now bits.now n cols.now scale.now (length acc.old) × (length g.now ≡ length cols.now) }
    ensures { acc.new ≡ times plus_zero
        (entry_of matrix.now bits.now n cols.now scale.now) (length cols.now)
        (length acc.old) g.now }
{
    fill(acc, 0.0);
    let mut next = next_live(scale, g, 0);
    while let Some(p) = next {
        let Some(q) = next_live(scale, g, p + 1) else {
            add_one_at(acc, matrix, bits, n, cols, scale, g, p);
            return;
        };
        add_two_at(acc, matrix, bits, n, cols, scale, g, p, q);
        next = next_live(scale, g, q + 1);
    }
}

// The sums of the rows' squares, of doubles.
fn norms_of_doubles(acc: &mut [f64], matrix: &[f64], n: usize, cols: &[u32], scale: &[f64])
    requires { Chosen matrix.now [] n cols.now scale.now (length acc.old) }
    ensures { acc.new ≡ row_norms plus_zero
        (entry_of matrix.now [] n cols.now scale.now) (length cols.now)
        (length acc.old) }
{
    fill(acc, 0.0);
    for (j, s) in cols.iter().zip(scale) {
        add_squares(acc, doubles_of(matrix, n, *j as usize), *s);
    }
}

// The sums of the rows' squares. Of bits every row has the same.
pub fn norms_into(
    acc: &mut [f64],
    matrix: &[f64],
    bits: &[u8],
    n: usize,
    cols: &[u32],
    scale: &[f64],
)
    requires { Chosen matrix.now bits.now n cols.now scale.now (length acc.old) }
    ensures { acc.new ≡ row_norms plus_zero
        (entry_of matrix.now bits.now n cols.now scale.now) (length cols.now)
        (length acc.old) }
{
    if bits.is_empty() {
        norms_of_doubles(acc, matrix, n, cols, scale);
    } else {
        fill(acc, dot(scale, scale));
    }
}
