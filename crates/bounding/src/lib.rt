// Whether rows less a column of doubles stay below a bound: a flip's test.
#![tactic(auto)]

ghost use Rattle.std.specs.Prelude.{◌≡◌, ◌≤◌, ◌+◌, length};
ghost use Rattle.std.specs.Float.Ieee.{lt};
ghost use Rattle.ieee.specs.Magnitude.{max_abs_to};
ghost use Rattle.columns.specs.Columns.{scaled_at};
ghost use Rattle.columns.specs.Kernels.{less_column};

use ieee::abs;

// Whether the largest magnitude of ax - t times the column is below a bound. The first row that is not settles it.
pub fn stays_below(ax: &[f64], column: &[f64], s: f64, t: f64, bound: f64) -> bool
    requires { (length column.now ≤ length ax.now) × (length ax.now ≤ length column.now + 1) }
    ensures { result ≡ lt (max_abs_to (less_column (scaled_at column.now s) t ax.now)
        (length ax.now)) bound }
{
    if !(0.0 < bound) {
        return false;
    }
    for (i, x) in column.iter().enumerate() {
        if abs(ax[i] - t * (*x * s)) >= bound {
            return false;
        }
    }
    let under = column.len();
    if under < ax.len() {
        return !(abs(ax[under] - t * abs(s)) >= bound);
    }
    true
}
