// Local search: single coordinates are flipped while that lowers the largest magnitude of A x.
#![tactic(auto)]

ghost use Rattle.std.specs.Prelude.{◌≡◌, ◌<◌, length};
ghost use Rattle.flipping.specs.Search.{searched};
ghost use Rattle.chosen.specs.Entries.{entry_of};
ghost use Rattle.chosen.specs.ChosenColumns.{Chosen};
ghost use Rattle.flipping.specs.Searching.{Swept, search_of, searched_in};

use flipping::try_flip;
use linear::max_abs;

// Tries every coordinate in order; the largest magnitude after the last flip, where there was one.
fn sweep(
    ax: &mut [f64],
    x: &mut [f64],
    best: f64,
    matrix: &[f64],
    bits: &[u8],
    n: usize,
    cols: &[u32],
    scale: &[f64],
) -> Option<f64>
    requires { Chosen matrix.now bits.now n cols.now scale.now (length ax.old) × (length x.old ≡ length cols.now) }
    ensures { Swept (entry_of matrix.now bits.now n cols.now scale.now)
        (length cols.now) x.old ax.old best (search_of x.new ax.new best result) }
{
    let mut found = None;
    for j in 0..cols.len() {
        let lowest = found.unwrap_or(best);
        found = try_flip(ax, x, j, lowest, matrix, bits, n, cols, scale).or(found);
    }
    found
}

// At most 100 sweeps: one that flips nothing is the last. How many there were, the last one too.
pub fn local_search(
    ax: &mut [f64],
    x: &mut [f64],
    matrix: &[f64],
    bits: &[u8],
    n: usize,
    cols: &[u32],
    scale: &[f64],
) -> usize
    requires { Chosen matrix.now bits.now n cols.now scale.now (length ax.old) × (length x.old ≡ length cols.now) }
    ensures { searched_in x.new result ≡ searched
        (entry_of matrix.now bits.now n cols.now scale.now)
        (length cols.now) x.old ax.old }
{
    let mut best = max_abs(&ax[..]);
    for made in 1..=100 {
        let Some(lower) = sweep(ax, x, best, matrix, bits, n, cols, scale) else {
            return made;
        };
        best = lower;
    }
    100
}
