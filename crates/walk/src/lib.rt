// A phase of the walk on its columns: rows are blocked, then steps are made until one ends the phase.
#![tactic(auto)]

ghost use Rattle.std.specs.Prelude.{◌≡◌, length};
ghost use Rattle.seq.specs.Sums.{plus_zero};
ghost use Rattle.begin.specs.Begin.{begun};
ghost use Rattle.walked.specs.Walk.{course_of};
ghost use Rattle.chosen.specs.Entries.{entry_of};
ghost use Rattle.chosen.specs.ChosenColumns.{Chosen};
ghost use Rattle.blocking.specs.Held.{ax_in, held, Roomy};
ghost use Rattle.walked.specs.Walking.{CourseHolds};

use begin::begin;
use draw::SplitMix64;
use seq::fill;
use stepping::step;
use walked::{Phased, Stand};

// Steps until one ends the phase or the basis is full.
fn steps(
    numbers: &mut [f64],
    blocked: &mut [u32],
    x: &mut [f64],
    free: &mut [u32],
    matrix: &[f64],
    bits: &[u8],
    n: usize,
    cols: &[u32],
    scale: &[f64],
    from: Stand,
    g: &mut [f64],
) -> Phased
    requires { Chosen matrix.now bits.now n cols.now scale.now (length blocked.old) × Roomy (length cols.now) numbers.old
        blocked.old x.old free.old from.count × (length g.old ≡ length cols.now) × (from.frozen ≡ 0) }
    ensures { CourseHolds numbers.new blocked.new x.new free.new result
        (course_of plus_zero (entry_of matrix.now bits.now n cols.now scale.now)
        (length cols.now) (length blocked.old)
        (held numbers.old blocked.old x.old free.old from.count
        from.frozen from.rng)) }
{
    let mut at = from;
    let mut directions = 0usize;
    while at.count < cols.len() {
        let more = step(
            numbers,
            blocked,
            x,
            free,
            matrix,
            bits,
            n,
            cols,
            scale,
            &mut at,
            &mut g[..],
        );
        directions += 1;
        if !more {
            break;
        }
    }
    Phased { at, directions }
}

// A whole phase, from x and A x; x and free are over its columns, and g is room for as many.
pub fn phase(
    numbers: &mut [f64],
    blocked: &mut [u32],
    x: &mut [f64],
    free: &mut [u32],
    matrix: &[f64],
    bits: &[u8],
    n: usize,
    cols: &[u32],
    scale: &[f64],
    rng: SplitMix64,
    g: &mut [f64],
) -> Phased
    requires { Chosen matrix.now bits.now n cols.now scale.now (length blocked.old) × Roomy (length cols.now) numbers.old
        blocked.old x.old free.old 0 × (length g.old ≡ length cols.now) }
    ensures { CourseHolds numbers.new blocked.new x.new free.new result
        (course_of plus_zero (entry_of matrix.now bits.now n cols.now scale.now)
        (length cols.now) (length blocked.old)
        (begun plus_zero (entry_of matrix.now bits.now n cols.now scale.now)
        (length cols.now) (length blocked.old) x.old
        (ax_in (length blocked.old) numbers.old) rng)) }
{
    fill(&mut free[..], 1);
    let count = begin(numbers, blocked, matrix, bits, n, cols, scale, &mut g[..]);
    steps(
        numbers,
        blocked,
        x,
        free,
        matrix,
        bits,
        n,
        cols,
        scale,
        Stand {
            count,
            frozen: 0,
            rng,
        },
        g,
    )
}
