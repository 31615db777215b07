// A flip's column of a lent matrix, of doubles or of bits: its test, and what it takes from the rows.
#![tactic(auto)]

ghost use Rattle.std.specs.Prelude.{◌≡◌, ◌≤◌, ◌+◌, ◌*◌, length};
ghost use Rattle.std.specs.Float.Ieee.{lt};
ghost use Rattle.seq.specs.Lists.{tabulate};
ghost use Rattle.ieee.specs.Magnitude.{max_abs_to};
ghost use Rattle.limits.specs.Reading.{read_of, Lies};
ghost use Rattle.columns.specs.Kernels.{less_column};
ghost use Rattle.staying.specs.Scaling.{scaled_by};

use bounding::stays_below;
use reading::{add_column_of, doubles_of, votes_of};
use staying::votes_stay_below;

// ax - t times column j, which is ax + -t times it, to the bit.
pub fn less_column_of(
    ax: &mut [f64],
    matrix: &[f64],
    bits: &[u8],
    n: usize,
    j: usize,
    s: f64,
    t: f64,
)
    requires { Lies matrix.now bits.now n j × (n ≤ length ax.old) × (length ax.old ≤ n + 1) }
    ensures { ax.new ≡ tabulate (less_column
        (scaled_by (read_of matrix.now bits.now n j) n s) t ax.old)
        (length ax.old) }
{
    add_column_of(ax, matrix, bits, n, j, s, -t);
}

// Whether the largest magnitude of ax - t times column j is below a bound.
pub fn stays_below_of(
    ax: &[f64],
    matrix: &[f64],
    bits: &[u8],
    n: usize,
    j: usize,
    s: f64,
    t: f64,
    bound: f64,
) -> bool
    requires { Lies matrix.now bits.now n j × (n ≤ length ax.now) × (length ax.now ≤ n + 1) }
    ensures { result ≡ lt (max_abs_to (less_column
        (scaled_by (read_of matrix.now bits.now n j) n s) t ax.now)
        (length ax.now)) bound }
{
    if bits.is_empty() {
        stays_below(ax, doubles_of(matrix, n, j), s, t, bound)
    } else {
        votes_stay_below(ax, votes_of(bits, n, j), n, s, t, bound)
    }
}
