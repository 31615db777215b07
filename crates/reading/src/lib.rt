// A column of a lent matrix, and what it does to a vector over the rows. The matrix is lent as doubles, or as bits where there are any;
// the choice is made here, once a column, so that whatever stands above has one text and one proof.
#![tactic(auto)]

ghost use Rattle.std.specs.Prelude.{◌≡◌, ◌≤◌, ◌+◌, ◌*◌, length};
ghost use Rattle.seq.specs.Lists.{tabulate, part};
ghost use Rattle.limits.specs.Votes.{bytes_of};
ghost use Rattle.limits.specs.Reading.{read_of, Lies};
ghost use Rattle.columns.specs.Kernels.{plus_column};
ghost use Rattle.staying.specs.Scaling.{scaled_by, scaled_votes};

use columns::add_column;
use ieee::abs;
use spare::bit;
use votes::add_signed;

// Column j of a matrix of doubles.
pub fn doubles_of(matrix: &[f64], n: usize, j: usize) -> &[f64]
    requires { j * n + n ≤ length matrix.now }
    ensures column { result.now ≡ part (j * n) n matrix.now }
    ensures long { length result.now ≡ n }
{
    &matrix[j * n..][..n]
}

// Column j of a matrix of bits.
pub fn votes_of(bits: &[u8], n: usize, j: usize) -> &[u8]
    requires { j * bytes_of n + bytes_of n ≤ length bits.now }
    ensures column { result.now ≡ part (j * bytes_of n) (bytes_of n) bits.now }
    ensures long { length result.now ≡ bytes_of n }
{
    let b = n.div_ceil(8);
    &bits[j * b..][..b]
}

// The entry at row i of column j, scaled by s; under the rows stands |s|.
pub fn entry_of(matrix: &[f64], bits: &[u8], n: usize, j: usize, s: f64, i: usize) -> f64
    requires { Lies matrix.now bits.now n j × (n ≤ 4097) }
    ensures { result ≡ scaled_by (read_of matrix.now bits.now n j) n s i }
{
    if n <= i {
        return abs(s);
    }
    if bits.is_empty() {
        return doubles_of(matrix, n, j)[i] * s;
    }
    let either = [s, -s];
    either[bit(usize::from(votes_of(bits, n, j)[i / 8]), i % 8)]
}

// acc + g times a column of bits.
fn add_votes(acc: &mut [f64], column: &[u8], n: usize, s: f64, g: f64)
    requires { (n ≤ 8 * length column.now) × (n ≤ length acc.old) × (length acc.old ≤ n + 1) }
    ensures { acc.new ≡ tabulate (plus_column (scaled_votes column.now n s) g acc.old)
        (length acc.old) }
{
    add_signed(acc, column, n, s * g);
    if n < acc.len() {
        acc[n] += abs(s) * g;
    }
}

// acc + g times column j.
pub fn add_column_of(
    acc: &mut [f64],
    matrix: &[f64],
    bits: &[u8],
    n: usize,
    j: usize,
    s: f64,
    g: f64,
)
    requires { Lies matrix.now bits.now n j × (n ≤ length acc.old) × (length acc.old ≤ n + 1) }
    ensures { acc.new ≡ tabulate (plus_column
        (scaled_by (read_of matrix.now bits.now n j) n s) g acc.old)
        (length acc.old) }
{
    if bits.is_empty() {
        add_column(acc, doubles_of(matrix, n, j), s, g);
    } else {
        add_votes(acc, votes_of(bits, n, j), n, s, g);
    }
}
