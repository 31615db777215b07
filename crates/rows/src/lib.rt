// Some rows of the margins at a time, column by column, so that no scratch is needed: how many, and what a column adds to them.
#![tactic(auto)]

ghost use Rattle.std.specs.Prelude.{◌≡◌, ◌≤◌, ◌+◌, ◌*◌, ◌/◌, ◌%◌, length};
ghost use Rattle.seq.specs.Lists.{tabulate, part};
ghost use Rattle.limits.specs.Votes.{bytes_of};
ghost use Rattle.limits.specs.Reading.{read_of, Lies};
ghost use Rattle.rows.specs.Blocks.{plus_at, plus_two_at, plus_rows, plus_two_rows};

use twovotes::add_two_signed;
use votes::add_signed;

// block + s times the column's rows.
fn add_scaled(block: &mut [f64], column: &[f64], s: f64)
    requires { length column.now ≡ length block.old }
    ensures { block.new ≡ tabulate (plus_at column.now s block.old) (length block.old) }
{
    for (i, x) in block.iter_mut().enumerate() {
        *x += column[i] * s;
    }
}

// k rows of column j from `from` on, of a matrix of doubles.
fn doubles_from(matrix: &[f64], n: usize, j: usize, from: usize, k: usize) -> &[f64]
    requires { j * n + from + k ≤ length matrix.now }
    ensures rows { result.now ≡ part (j * n + from) k matrix.now }
    ensures long { length result.now ≡ k }
{
    &matrix[j * n + from..][..k]
}

// The bytes that k rows of column j take, from `from` on, of a matrix of bits.
fn votes_from(bits: &[u8], n: usize, j: usize, from: usize, k: usize) -> &[u8]
    requires { j * bytes_of n + from / 8 + bytes_of k ≤ length bits.now }
    ensures rows { result.now ≡ part (j * bytes_of n + from / 8) (bytes_of k) bits.now }
    ensures long { length result.now ≡ bytes_of k }
{
    &bits[j * n.div_ceil(8) + from / 8..][..k.div_ceil(8)]
}

// block + s times the rows of column j from `from` on, which starts a byte. The choice between doubles and bits is made here.
pub fn add_rows(
    block: &mut [f64],
    from: usize,
    matrix: &[f64],
    bits: &[u8],
    n: usize,
    j: usize,
    s: f64,
)
    requires { Lies matrix.now bits.now n j × (from + length block.old ≤ n) × (n ≤ 4096) × (from % 8 ≡ 0) }
    ensures { block.new ≡ tabulate (plus_rows (read_of matrix.now bits.now n) j from s
        block.old) (length block.old) }
{
    let k = block.len();
    if bits.is_empty() {
        add_scaled(block, doubles_from(matrix, n, j, from, k), s);
    } else {
        add_signed(block, votes_from(bits, n, j, from, k), k, s);
    }
}

// block + s times the rows of one column + t times those of another.
fn add_two_scaled(block: &mut [f64], first: &[f64], s: f64, second: &[f64], t: f64)
    requires { (length first.now ≡ length block.old) × (length second.now ≡ length block.old) }
    ensures { block.new ≡ tabulate (plus_two_at first.now s second.now t block.old)
        (length block.old) }
{
    for (i, x) in block.iter_mut().enumerate() {
        *x = (*x + first[i] * s) + second[i] * t;
    }
}

// block + s times the rows of column j + t times those of column p, from `from` on. Two at a time, a row is read and written half as often.
pub fn add_two_rows(
    block: &mut [f64],
    from: usize,
    matrix: &[f64],
    bits: &[u8],
    n: usize,
    j: usize,
    s: f64,
    p: usize,
    t: f64,
)
    requires { Lies matrix.now bits.now n j × Lies matrix.now bits.now n p × (from + length block.old ≤ n) × (n ≤ 4096)
        × (from % 8 ≡ 0) }
    ensures { block.new ≡ tabulate (plus_two_rows (read_of matrix.now bits.now n) j s p t from
        block.old) (length block.old) }
{
    let k = block.len();
    if bits.is_empty() {
        let first = doubles_from(matrix, n, j, from, k);
        let second = doubles_from(matrix, n, p, from, k);
        add_two_scaled(block, first, s, second, t);
    } else {
        let first = votes_from(bits, n, j, from, k);
        let second = votes_from(bits, n, p, from, k);
        add_two_signed(block, first, s, second, t, k);
    }
}

// How many rows a block of `most` rows has that starts at `from`.
pub fn block_length(from: usize, n: usize, most: usize) -> usize
    requires { from ≤ n }
    ensures { (from + result ≤ n) × (result ≤ most) × (n ≤ from + most → from + result ≡ n) × (from + most ≤ n → result ≡ most) }
{
    (n - from).min(most)
}
