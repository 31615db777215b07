// How coordinates freeze, and how rows are blocked.
#![tactic(auto)]

ghost use Rattle.std.specs.Prelude.{◌≡◌, ◌≤◌, length};
ghost use Rattle.chosen.specs.Entries.{entry_of};
ghost use Rattle.chosen.specs.ChosenColumns.{Chosen};
ghost use Rattle.blocking.specs.Held.{Roomy, FreezesAll};

use ieee::abs;
use snapping::freeze_at;

// How many vectors the basis has, and how many coordinates froze in this phase.
#[derive(Clone, Copy)]
pub struct Frozen {
    pub count: usize,
    pub frozen: usize,
}

// Freezes each free coordinate that is near enough to 1 or -1, in order.
pub fn freeze(
    numbers: &mut [f64],
    from: Frozen,
    blocked: &mut [u32],
    x: &mut [f64],
    free: &mut [u32],
    matrix: &[f64],
    bits: &[u8],
    n: usize,
    cols: &[u32],
    scale: &[f64],
    v: &mut [f64],
) -> Frozen
    requires { Chosen matrix.now bits.now n cols.now scale.now (length blocked.old) × Roomy (length cols.now) numbers.old
        blocked.old x.old free.old from.count × (length v.old ≡ length cols.now) × (from.frozen ≤ 256) }
    ensures { FreezesAll (entry_of matrix.now bits.now n cols.now scale.now)
        (length cols.now) numbers.old blocked.old x.old free.old from.count
        from.frozen result.count result.frozen numbers.new blocked.new x.new free.new }
{
    let mut f = from;
    for p in 0..cols.len() {
        if free[p] == 1 && abs(x[p]) >= 1.0 - 1e-9 {
            f.count = freeze_at(
                numbers,
                f.count,
                blocked,
                x,
                free,
                p,
                matrix,
                bits,
                n,
                cols,
                scale,
                &mut v[..],
            );
            f.frozen += 1;
        }
    }
    f
}
