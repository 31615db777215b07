// One coordinate freezes: it snaps to 1 or -1, leaves the free ones, and its axis and the worst row are blocked.
#![tactic(auto)]

ghost use Rattle.std.specs.Prelude.{◌≡◌, ◌<◌, length};
ghost use Rattle.blocking.specs.Freeze.{axis};
ghost use Rattle.chosen.specs.Entries.{entry_of};
ghost use Rattle.chosen.specs.ChosenColumns.{Chosen};
ghost use Rattle.blocking.specs.Held.{Roomy, FreezesOne};

use basis::insert;
use blocking::block_worst;
use ieee::signum;
use seq::fill;

// The vector with 1.0 at p.
fn axis_into(v: &mut [f64], p: usize)
    requires { p < length v.old }
    ensures { v.new ≡ axis (length v.old) p }
{
    fill(&mut v[..], 0.0);
    v[p] = 1.0;
}

// Freezes coordinate p; the new count.
pub fn freeze_at(
    numbers: &mut [f64],
    count: usize,
    blocked: &mut [u32],
    x: &mut [f64],
    free: &mut [u32],
    p: usize,
    matrix: &[f64],
    bits: &[u8],
    n: usize,
    cols: &[u32],
    scale: &[f64],
    v: &mut [f64],
) -> usize
    requires { Chosen matrix.now bits.now n cols.now scale.now (length blocked.old) × Roomy (length cols.now) numbers.old
        blocked.old x.old free.old count × (length v.old ≡ length cols.now) × (p < length cols.now) }
    ensures { FreezesOne (entry_of matrix.now bits.now n cols.now scale.now)
        (length cols.now) numbers.old blocked.old x.old free.old count p result
        numbers.new blocked.new x.new free.new }
{
    x[p] = signum(x[p]);
    free[p] = 0;
    axis_into(&mut v[..], p);
    let base = blocked.len() + blocked.len() + blocked.len();
    let c = insert(&mut numbers[base..], count, cols.len(), &mut v[..]);
    block_worst(numbers, c, blocked, matrix, bits, n, cols, scale, v)
}
