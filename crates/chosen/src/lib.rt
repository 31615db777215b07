// How an entry of a pass is read, and the next column at which a direction is not 0.
#![tactic(auto)]

ghost use Rattle.std.specs.Prelude.{◌≡◌, ◌<◌, max, length, unwrap_or, IfSome};
ghost use Rattle.chosen.specs.Entries.{entry_of};
ghost use Rattle.chosen.specs.ChosenColumns.{Chosen};
ghost use Rattle.chosen.specs.PassedOver.{PassedOver};

use ieee::is_finite;
use reading::entry_of;

// The entry at row i of column p.
pub fn entry(
    matrix: &[f64],
    bits: &[u8],
    n: usize,
    cols: &[u32],
    scale: &[f64],
    p: usize,
    i: usize,
) -> f64
    requires { Chosen matrix.now bits.now n cols.now scale.now n × (p < length cols.now) }
    ensures { result ≡ entry_of matrix.now bits.now n cols.now scale.now p i }
{
    entry_of(matrix, bits, n, cols[p] as usize, scale[p], i)
}

// The first place from `from` on whose column may add something. Where g is 0.0 and the scale is finite, the column's entries are finite
// too, and it adds nothing.
pub fn next_live(scale: &[f64], g: &[f64], from: usize) -> Option<usize>
    requires { length scale.now ≡ length g.now }
    ensures passed { PassedOver scale.now g.now from (unwrap_or result (max from (length g.now))) }
    ensures there { IfSome result (λ p. p < length g.now) }
{
    (from..g.len()).find(|p| g[*p] != 0.0 || !is_finite(scale[*p]))
}
