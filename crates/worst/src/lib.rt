// The worst row: the largest magnitude among those that are not blocked.
#![tactic(auto)]

ghost use Rattle.std.specs.Prelude.{◌≡◌, ◌≤◌, ◌<◌, ◌+◌, eqb, length};
ghost use Rattle.seq.specs.Choice.{pick};
ghost use Rattle.seq.specs.Sums.{at};
ghost use Rattle.ieee.specs.Magnitude.{above_of};
ghost use Rattle.order.specs.Order.{worst_to};
ghost use Rattle.seq.specs.Marks.{is_set};
ghost use Rattle.seq.specs.Passing.{four_of, PassedTo};
ghost use Rattle.worst.specs.Passed.{passed};

use ieee::{above, abs, at_most};

// Whether row i is not blocked and worse than row w, the worst before it; where there is none, w is the number of rows.
fn is_worse(ax: &[f64], blocked: &[u32], i: usize, w: usize) -> bool
    requires { (length blocked.now ≡ length ax.now) × (i < length ax.now) × (w ≤ length ax.now) }
    ensures { pick result i w ≡ pick (is_set blocked.now i) w
        (pick (eqb w (length ax.now)) i (pick (above_of (at ax.now i) (at ax.now w)) i w)) }
{
    if blocked[i] == 1 {
        return false;
    }
    if w == ax.len() {
        return true;
    }
    above(ax[i], ax[w])
}

// Whether row k is passed over: it is blocked, or its magnitude is at most top.
fn passes(ax: &[f64], blocked: &[u32], k: usize, top: f64) -> bool
    requires { (length blocked.now ≡ length ax.now) × (k < length ax.now) }
    ensures { result ≡ passed ax.now blocked.now top k }
{
    at_most(ax[k], top) | (blocked[k] == 1)
}

// Whether the four rows from i on are.
fn four_pass(ax: &[f64], blocked: &[u32], i: usize, top: f64) -> bool
    requires { (length blocked.now ≡ length ax.now) × (i + 4 ≤ length ax.now) }
    ensures { result ≡ four_of (passed ax.now blocked.now top) i }
{
    let two = passes(ax, blocked, i, top) & passes(ax, blocked, i + 1, top);
    (two & passes(ax, blocked, i + 2, top)) & passes(ax, blocked, i + 3, top)
}

// A row from `from` on up to which each is passed over: four at a time, while there are four and they are.
fn pass_over(ax: &[f64], blocked: &[u32], from: usize, top: f64) -> usize
    requires { (length blocked.now ≡ length ax.now) × (from ≤ length ax.now) }
    ensures { PassedTo (passed ax.now blocked.now top) (length ax.now) from result }
{
    let mut i = from;
    while ax.len() - i >= 4 {
        if !four_pass(ax, blocked, i, top) {
            return i;
        }
        i += 4;
    }
    i
}

// The row that is not blocked with the largest magnitude of ax, the first of equal ones, or their number where each is blocked.
// top is the magnitude of the row so far, or a NaN.
pub fn worst(ax: &[f64], blocked: &[u32]) -> usize
    requires { length blocked.now ≡ length ax.now }
    ensures { result ≡ worst_to ax.now blocked.now (length ax.now) (length ax.now) }
{
    let none = ax.len();
    let mut w = none;
    let mut top = 0.0 / 0.0;
    let mut i = 0usize;
    while i < ax.len() {
        if !at_most(ax[i], top) && is_worse(ax, blocked, i, w) {
            w = i;
            top = abs(ax[i]);
        }
        i = pass_over(ax, blocked, i + 1, top);
    }
    w
}
