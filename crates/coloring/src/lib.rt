// The colouring of chosen and scaled columns: phases of the walk until no coordinate is free, then local search.
#![tactic(auto)]

ghost use Rattle.std.specs.Prelude.{◌≡◌, ◌≤◌, ◌*◌, ◌+◌, length};
ghost use Rattle.seq.specs.Sums.{plus_zero};
ghost use Rattle.colored.specs.Coloring.{coloring_of};
ghost use Rattle.chosen.specs.Entries.{entry_of};
ghost use Rattle.chosen.specs.ChosenColumns.{Chosen};
ghost use Rattle.blocking.specs.Held.{Roomy};
ghost use Rattle.colored.specs.Fresh.{Fresh, WalkedAs, SearchedAs, ColoredAs};

use colored::Counted;
use draw::SplitMix64;
use entries::times_into;
use phasing::next_phase;
use search::local_search;
use seq::fill;

// Phases until no coordinate is free; how many directions they drew. x is all 0.0, free all set and A x all 0.0.
// The arrays are room that the phases share.
fn walk_to_end(
    numbers: &mut [f64],
    blocked: &mut [u32],
    x: &mut [f64],
    free: &mut [u32],
    matrix: &[f64],
    bits: &[u8],
    n: usize,
    cols: &[u32],
    scale: &[f64],
    rng: &mut SplitMix64,
) -> usize
    requires { Chosen matrix.now bits.now n cols.now scale.now (length blocked.old) × Roomy (length cols.now) numbers.old
        blocked.old x.old free.old 0 × Fresh (length cols.now) (length blocked.old) numbers.old x.old free.old }
    ensures { WalkedAs (entry_of matrix.now bits.now n cols.now scale.now)
        (length cols.now) (length blocked.old) rng.old numbers.new x.new free.new
        rng.new result }
{
    let mut places = [0u32; 256];
    let mut subcols = [0u32; 256];
    let mut subscale = [0.0f64; 256];
    let mut subx = [0.0f64; 256];
    let mut subfree = [0u32; 256];
    let mut g = [0.0f64; 256];
    let mut directions = 0usize;
    while free.contains(&1) {
        let next = next_phase(
            numbers,
            blocked,
            x,
            free,
            matrix,
            bits,
            n,
            cols,
            scale,
            *rng,
            &mut places[..],
            &mut subcols[..],
            &mut subscale[..],
            &mut subx[..],
            &mut subfree[..],
            &mut g[..],
        );
        *rng = next.at.rng;
        directions += next.directions;
    }
    directions
}

// The whole walk, from x = 0 with every coordinate free; how many directions it drew.
fn walk_anew(
    numbers: &mut [f64],
    blocked: &mut [u32],
    x: &mut [f64],
    free: &mut [u32],
    matrix: &[f64],
    bits: &[u8],
    n: usize,
    cols: &[u32],
    scale: &[f64],
    rng: &mut SplitMix64,
) -> usize
    requires { Chosen matrix.now bits.now n cols.now scale.now (length blocked.old) × Roomy (length cols.now) numbers.old
        blocked.old x.old free.old 0 }
    ensures { WalkedAs (entry_of matrix.now bits.now n cols.now scale.now)
        (length cols.now) (length blocked.old) rng.old numbers.new x.new free.new
        rng.new result }
{
    let rows = blocked.len();
    fill(&mut x[..], 0.0);
    fill(&mut numbers[..rows], 0.0);
    fill(&mut free[..], 1);
    walk_to_end(numbers, blocked, x, free, matrix, bits, n, cols, scale, rng)
}

// Local search from the colours x, with A x anew; how many sweeps.
fn search_anew(
    ax: &mut [f64],
    x: &mut [f64],
    matrix: &[f64],
    bits: &[u8],
    n: usize,
    cols: &[u32],
    scale: &[f64],
) -> usize
    requires { Chosen matrix.now bits.now n cols.now scale.now (length ax.old) × (length x.old ≡ length cols.now) }
    ensures { SearchedAs (entry_of matrix.now bits.now n cols.now scale.now)
        (length cols.now) (length ax.old) x.old x.new result }
{
    times_into(&mut ax[..], matrix, bits, n, cols, scale, &x[..]);
    local_search(ax, x, matrix, bits, n, cols, scale)
}

// Colours the columns, 1.0 or -1.0 each, into x. blocked is as long as there are rows.
pub fn coloring(
    matrix: &[f64],
    bits: &[u8],
    n: usize,
    cols: &[u32],
    scale: &[f64],
    x: &mut [f64],
    numbers: &mut [f64],
    blocked: &mut [u32],
    rng: SplitMix64,
) -> Counted
    requires { Chosen matrix.now bits.now n cols.now scale.now (length blocked.old) × (length x.old ≡ length cols.now)
        × (length
        blocked.old + length blocked.old + length blocked.old + length cols.now * length cols.now ≤ length
        numbers.old) }
    ensures { ColoredAs x.new result (coloring_of plus_zero
        (entry_of matrix.now bits.now n cols.now scale.now) (length cols.now)
        (length blocked.old) rng) }
{
    let k = cols.len();
    let rows = blocked.len();
    let mut free = [0u32; 256];
    let mut after = rng;
    let directions = walk_anew(
        &mut numbers[..],
        blocked,
        &mut x[..],
        &mut free[..k],
        matrix,
        bits,
        n,
        cols,
        scale,
        &mut after,
    );
    let sweeps = search_anew(&mut numbers[..rows], x, matrix, bits, n, cols, scale);
    Counted {
        directions,
        sweeps,
        rng: after,
    }
}
