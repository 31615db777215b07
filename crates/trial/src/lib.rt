// One more pass, tried: its weights are taken unless they measure above the allowance and the cap is met already.
#![tactic(auto)]

ghost use Rattle.std.specs.Prelude.{◌≡◌, ◌≤◌, ◌&&◌, length};
ghost use Rattle.limits.specs.Reading.{read_of};
ghost use Rattle.weights.specs.Weights.{nonzeros};
ghost use Rattle.halved.specs.Handed.{Ready, Countable};
ghost use Rattle.rules.specs.Rules.{meets};
ghost use Rattle.tried.specs.Trial.{TriedOnce};

use change::change_of;
use colored::Counted;
use halving::halving_pass;
use rules::meets_cap;
use seq::copy;
use tried::{Outcome, Tried};
use weights::count_nonzeros;

// Whether weights meet the cap, where the change is above the allowance.
fn ends_there(above: bool, cap: Option<usize>, w: &[f64]) -> bool
    ensures { result ≡ (above && meets cap (nonzeros w.now)) }
{
    if above {
        meets_cap(cap, count_nonzeros(w))
    } else {
        false
    }
}

// Tries one more pass from w, and takes its weights unless it measures above the allowance and w meets the cap.
pub fn try_pass(
    matrix: &[f64],
    bits: &[u8],
    n: usize,
    start: &[f64],
    w: &mut [f64],
    next: &mut [f64],
    numbers: &mut [f64],
    indices: &mut [u32],
    tally: Counted,
    allowance: f64,
    cap: Option<usize>,
) -> Tried
    requires { Ready matrix.now bits.now n w.old numbers.old indices.old × (length start.now ≡ length w.old)
        × (length next.old ≡ length w.old) × (2 ≤ nonzeros w.old) × Countable tally 2 }
    ensures { TriedOnce (read_of matrix.now bits.now n) n start.now allowance cap
        w.old tally result w.new }
{
    copy(&mut next[..], &w[..]);
    let after = halving_pass(matrix, bits, n, &mut next[..], numbers, indices, tally);
    let change = change_of(matrix, bits, n, start, &next[..]);
    let above = !(change <= allowance);
    if ends_there(above, cap, &w[..]) {
        return Tried {
            tally: after,
            change,
            outcome: Outcome::Discarded,
        };
    }
    copy(&mut w[..], &next[..]);
    let outcome = if ends_there(above, cap, &w[..]) {
        Outcome::Last
    } else {
        Outcome::Onward
    };
    Tried {
        tally: after,
        change,
        outcome,
    }
}
