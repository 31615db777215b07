// Whether a vector over the rows, less a column of bits, stays below a bound in magnitude. It decides a flip.
#![tactic(auto)]

ghost use Rattle.std.specs.Prelude.{◌≡◌, true, ◌≤◌, ◌<◌, ◌+◌, ◌*◌, length};
ghost use Rattle.std.specs.Float.Ieee.{lt};
ghost use Rattle.seq.specs.Sums.{plus_zero};
ghost use Rattle.ieee.specs.Magnitude.{max_abs_to};
ghost use Rattle.columns.specs.Kernels.{less_column};
ghost use Rattle.staying.specs.Scaling.{scaled_votes};
ghost use Rattle.staying.specs.Below.{less_signed, below_four};

use ieee::abs;
use spare::bit;
use votes::signed_pairs;

// Whether none of the four rows from r on, less what the nibble v signs, reaches the bound in magnitude.
fn four_below(ax: &[f64], r: usize, pairs: &[f64; 8], v: usize, bound: f64) -> bool
    requires { (r + 4 ≤ length ax.now) × (v < 16) }
    ensures { result ≡ below_four ax.now r pairs.now v bound }
{
    let a = abs(ax[r] - pairs[2 * (v % 4)]) >= bound;
    let b = abs(ax[r + 1] - pairs[2 * (v % 4) + 1]) >= bound;
    let c = abs(ax[r + 2] - pairs[2 * (v / 4)]) >= bound;
    let d = abs(ax[r + 3] - pairs[2 * (v / 4) + 1]) >= bound;
    !(((a | b) | c) | d)
}

// A number of rows, of the first k bytes, whose magnitudes less t, signed by the bits, are all below the bound.
fn rows_below(ax: &[f64], column: &[u8], k: usize, t: f64, bound: f64) -> usize
    requires { (8 * k ≤ length ax.now) × (k ≤ length column.now) × (lt plus_zero bound ≡ true) }
    ensures { (result ≤ 8 * k) × (lt (max_abs_to (less_signed column.now t ax.now) result) bound ≡ true) }
{
    let pairs = signed_pairs(t);
    for (i, byte) in column[..k].iter().enumerate() {
        let b = usize::from(*byte);
        if !four_below(ax, 8 * i, &pairs, b % 16, bound)
            || !four_below(ax, 8 * i + 4, &pairs, b / 16, bound)
        {
            return 8 * i;
        }
    }
    8 * k
}

// Whether the largest magnitude of ax - t times the column is below a bound. The first row that is not settles it.
pub fn votes_stay_below(ax: &[f64], column: &[u8], n: usize, s: f64, t: f64, bound: f64) -> bool
    requires { (n ≤ 8 * length column.now) × (n ≤ length ax.now) × (length ax.now ≤ n + 1) }
    ensures { result ≡ lt (max_abs_to (less_column (scaled_votes column.now n s) t ax.now)
        (length ax.now)) bound }
{
    if !(0.0 < bound) {
        return false;
    }
    let p = t * s;
    let either = [p, -p];
    let passed = rows_below(ax, column, n / 8, p, bound);
    for i in passed..n {
        if abs(ax[i] - either[bit(usize::from(column[i / 8]), i % 8)]) >= bound {
            return false;
        }
    }
    if n < ax.len() {
        return !(abs(ax[n] - t * abs(s)) >= bound);
    }
    true
}
