// Two columns of a lent matrix added at a time, of doubles or of bits: the choice is made here, once for both.
#![tactic(auto)]

ghost use Rattle.std.specs.Prelude.{◌≡◌, ◌≤◌, ◌+◌, ◌*◌, length};
ghost use Rattle.seq.specs.Lists.{tabulate};
ghost use Rattle.limits.specs.Reading.{read_of, Lies};
ghost use Rattle.columns.specs.Kernels.{plus_columns};
ghost use Rattle.staying.specs.Scaling.{scaled_by, scaled_votes};

use columns::add_two;
use ieee::abs;
use reading::{doubles_of, votes_of};
use twovotes::add_two_signed;

// acc + two columns of bits, each times its g, in order.
fn add_two_votes(
    acc: &mut [f64],
    first: &[u8],
    s: f64,
    g: f64,
    second: &[u8],
    t: f64,
    h: f64,
    n: usize,
)
    requires { (n ≤ 8 * length first.now) × (n ≤ 8 * length second.now) × (n ≤ length acc.old) ×
        (length acc.old ≤ n + 1) }
    ensures { acc.new ≡ tabulate (plus_columns (scaled_votes first.now n s) g
        (scaled_votes second.now n t) h acc.old) (length acc.old) }
{
    add_two_signed(acc, first, s * g, second, t * h, n);
    if n < acc.len() {
        acc[n] = (acc[n] + abs(s) * g) + abs(t) * h;
    }
}

// acc + columns j and k, each times its g, in order.
pub fn add_two_of(
    acc: &mut [f64],
    matrix: &[f64],
    bits: &[u8],
    n: usize,
    j: usize,
    s: f64,
    g: f64,
    k: usize,
    t: f64,
    h: f64,
)
    requires { Lies matrix.now bits.now n j × Lies matrix.now bits.now n k × (n ≤ length acc.old) ×
        (length acc.old ≤ n + 1) }
    ensures { acc.new ≡ tabulate (plus_columns
        (scaled_by (read_of matrix.now bits.now n j) n s) g
        (scaled_by (read_of matrix.now bits.now n k) n t) h acc.old)
        (length acc.old) }
{
    if bits.is_empty() {
        add_two(
            acc,
            doubles_of(matrix, n, j),
            s,
            g,
            doubles_of(matrix, n, k),
            t,
            h,
        );
    } else {
        add_two_votes(
            acc,
            votes_of(bits, n, j),
            s,
            g,
            votes_of(bits, n, k),
            t,
            h,
            n,
        );
    }
}
