// One step of the walk: a direction is drawn, moved along, and what reaches the limit freezes.
#![tactic(auto)]

ghost use Rattle.std.specs.Prelude.{◌≡◌, ◌≤◌, length};
ghost use Rattle.seq.specs.Sums.{plus_zero};
ghost use Rattle.walked.specs.Walk.{step_of};
ghost use Rattle.chosen.specs.Entries.{entry_of};
ghost use Rattle.chosen.specs.ChosenColumns.{Chosen};
ghost use Rattle.blocking.specs.Held.{held, Roomy};
ghost use Rattle.walked.specs.Walking.{StepHolds};

use advance::advance;
use drawing::{direct, draw_into};
use freeze::{Frozen, freeze};
use walked::Stand;

// One step; whether the phase goes on. g is room for a direction and then for a row.
pub fn step(
    numbers: &mut [f64],
    blocked: &mut [u32],
    x: &mut [f64],
    free: &mut [u32],
    matrix: &[f64],
    bits: &[u8],
    n: usize,
    cols: &[u32],
    scale: &[f64],
    at: &mut Stand,
    g: &mut [f64],
) -> bool
    requires { Chosen matrix.now bits.now n cols.now scale.now (length blocked.old) × Roomy (length cols.now) numbers.old
        blocked.old x.old free.old at.old.count × (length g.old ≡ length cols.now) × (at.old.frozen ≤ 256) }
    ensures { StepHolds numbers.new blocked.new x.new free.new at.new result
        (step_of plus_zero (entry_of matrix.now bits.now n cols.now scale.now)
        (length cols.now) (length blocked.old)
        (held numbers.old blocked.old x.old free.old at.old.count
        at.old.frozen at.old.rng)) }
{
    let l = cols.len();
    let rows = blocked.len();
    let base = rows + rows + rows;
    let end = base + at.count * l;
    draw_into(&mut g[..], &mut at.rng);
    if direct(&numbers[base..end], at.count, l, &free[..], &mut g[..]) {
        return false;
    }
    if !advance(numbers, rows, x, &free[..], matrix, bits, n, cols, scale, g) {
        return false;
    }
    let from = Frozen {
        count: at.count,
        frozen: at.frozen,
    };
    let f = freeze(
        numbers, from, blocked, x, free, matrix, bits, n, cols, scale, g,
    );
    at.count = f.count;
    at.frozen = f.frozen;
    from.frozen < f.frozen
}
