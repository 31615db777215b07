// One flip of a colour, tried: local_search's inner step.
#![tactic(auto)]

ghost use Rattle.std.specs.Prelude.{◌≡◌, ◌<◌, length};
ghost use Rattle.chosen.specs.Entries.{entry_of};
ghost use Rattle.chosen.specs.ChosenColumns.{Chosen};
ghost use Rattle.flipping.specs.Searching.{Tried, unswept};

use lessening::{less_column_of, stays_below_of};
use linear::max_abs;

// Flips coordinate j where that lowers the largest magnitude of ax, which is best; what it is then, where it does.
pub fn try_flip(
    ax: &mut [f64],
    x: &mut [f64],
    j: usize,
    best: f64,
    matrix: &[f64],
    bits: &[u8],
    n: usize,
    cols: &[u32],
    scale: &[f64],
) -> Option<f64>
    requires { Chosen matrix.now bits.now n cols.now scale.now (length ax.old) × (length x.old ≡ length cols.now) ×
        (j < length cols.now) }
    ensures { Tried (entry_of matrix.now bits.now n cols.now scale.now j) j (unswept x.old ax.old best) x.new ax.new result }
{
    let c = cols[j] as usize;
    let s = scale[j];
    let t = 2.0 * x[j];
    if !stays_below_of(&ax[..], matrix, bits, n, c, s, t, best * (1.0 - 1e-12)) {
        return None;
    }
    less_column_of(&mut ax[..], matrix, bits, n, c, s, t);
    x[j] = -x[j];
    Some(max_abs(&ax[..]))
}
