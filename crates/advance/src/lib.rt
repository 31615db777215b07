// The move along a direction: downhill, and as far as every coordinate stays in [-1, 1].
#![tactic(auto)]

ghost use Rattle.std.specs.Prelude.{◌≡◌, ◌≤◌, ◌+◌, length};
ghost use Rattle.chosen.specs.Entries.{entry_of};
ghost use Rattle.chosen.specs.ChosenColumns.{Chosen};
ghost use Rattle.advance.specs.Advancing.{Downhill, Advanced};

use direction::{move_free, move_rows, reach, turn_if};
use entries::times_into;
use ieee::is_finite;
use linear::dot;

// A g beside A x, both turned where the direction leads uphill.
fn turn_downhill(
    numbers: &mut [f64],
    rows: usize,
    matrix: &[f64],
    bits: &[u8],
    n: usize,
    cols: &[u32],
    scale: &[f64],
    g: &mut [f64],
)
    requires { Chosen matrix.now bits.now n cols.now scale.now rows × (length g.old ≡ length cols.now)
        × (rows + rows ≤ length numbers.old) }
    ensures { Downhill (entry_of matrix.now bits.now n cols.now scale.now) rows
        numbers.old g.old numbers.new g.new }
{
    let to = rows + rows;
    times_into(&mut numbers[rows..to], matrix, bits, n, cols, scale, &g[..]);
    let all = &numbers[..];
    let uphill = dot(&all[0..rows], &all[rows..to]) > 0.0;
    turn_if(&mut g[..], uphill);
    turn_if(&mut numbers[rows..to], uphill);
}

// Moves x and A x along g as far as x stays in [-1, 1]; whether that is a finite step.
pub fn advance(
    numbers: &mut [f64],
    rows: usize,
    x: &mut [f64],
    free: &[u32],
    matrix: &[f64],
    bits: &[u8],
    n: usize,
    cols: &[u32],
    scale: &[f64],
    g: &mut [f64],
) -> bool
    requires { Chosen matrix.now bits.now n cols.now scale.now rows × (length g.old ≡ length cols.now)
        × (length x.old ≡ length cols.now)
        × (length free.now ≡ length cols.now) × (rows + rows ≤ length numbers.old) }
    ensures { Advanced (entry_of matrix.now bits.now n cols.now scale.now) rows
        numbers.old x.old free.now g.old result numbers.new x.new }
{
    turn_downhill(numbers, rows, matrix, bits, n, cols, scale, &mut g[..]);
    let t = reach(&x[..], &g[..], free);
    if !is_finite(t) {
        return false;
    }
    move_free(x, t, &g[..], free);
    let to = rows + rows;
    move_rows(&mut numbers[0..to], rows, t);
    true
}
