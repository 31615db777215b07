// One phase of the walk on the free columns: they are chosen, the phase is made on them, and they are put back.
#![tactic(auto)]

ghost use Rattle.std.specs.Prelude.{◌≤◌, length};
ghost use Rattle.seq.specs.Indices.{Below};
ghost use Rattle.chosen.specs.Entries.{entry_of};
ghost use Rattle.chosen.specs.ChosenColumns.{Chosen};
ghost use Rattle.blocking.specs.Held.{Roomy};
ghost use Rattle.phased.specs.Phasing.{RoomAtPlaces, RoomForAll, PhasedAt, OnePhase};

use draw::SplitMix64;
use places::{choose, free_places, put_back, round_free};
use seq::fill;
use walk::phase;
use walked::Phased;

// A phase on the columns at some places. The last five slices are room: for what is chosen there, and for a direction.
fn phase_on(
    numbers: &mut [f64],
    blocked: &mut [u32],
    x: &mut [f64],
    free: &mut [u32],
    places: &[u32],
    matrix: &[f64],
    bits: &[u8],
    n: usize,
    cols: &[u32],
    scale: &[f64],
    rng: SplitMix64,
    subcols: &mut [u32],
    subscale: &mut [f64],
    subx: &mut [f64],
    subfree: &mut [u32],
    g: &mut [f64],
) -> Phased
    requires chosen { Chosen matrix.now bits.now n cols.now scale.now (length blocked.old) × Roomy (length cols.now) numbers.old
        blocked.old x.old free.old 0 × Below places.now (length cols.now) × (length places.now ≤ length cols.now) }
    requires room_at_places { RoomAtPlaces (length places.now) subcols.old subscale.old subx.old subfree.old g.old }
    ensures { PhasedAt (entry_of matrix.now bits.now n cols.now scale.now)
        (length blocked.old) places.now rng numbers.old x.old
        free.old result numbers.new x.new free.new }
{
    choose(&mut subcols[..], cols, places);
    choose(&mut subscale[..], scale, places);
    choose(&mut subx[..], &x[..], places);
    let p = phase(
        numbers,
        blocked,
        &mut subx[..],
        &mut subfree[..],
        matrix,
        bits,
        n,
        &subcols[..],
        &subscale[..],
        rng,
        g,
    );
    put_back(x, places, &subx[..]);
    put_back(free, places, &subfree[..]);
    p
}

// A phase on the free columns; a phase that freezes nothing rounds them. The last six slices are room, for as much as there are columns.
pub fn next_phase(
    numbers: &mut [f64],
    blocked: &mut [u32],
    x: &mut [f64],
    free: &mut [u32],
    matrix: &[f64],
    bits: &[u8],
    n: usize,
    cols: &[u32],
    scale: &[f64],
    rng: SplitMix64,
    places: &mut [u32],
    subcols: &mut [u32],
    subscale: &mut [f64],
    subx: &mut [f64],
    subfree: &mut [u32],
    g: &mut [f64],
) -> Phased
    requires chosen { Chosen matrix.now bits.now n cols.now scale.now (length blocked.old) × Roomy (length cols.now) numbers.old
        blocked.old x.old free.old 0 }
    requires room_for_all { RoomForAll (length cols.now) places.old subcols.old subscale.old subx.old subfree.old g.old }
    ensures { OnePhase (entry_of matrix.now bits.now n cols.now scale.now)
        (length cols.now) (length blocked.old) rng numbers.old x.old free.old result
        numbers.new x.new free.new }
{
    let l = free_places(&mut places[..], &free[..]);
    let p = phase_on(
        numbers,
        blocked,
        x,
        free,
        &places[..l],
        matrix,
        bits,
        n,
        cols,
        scale,
        rng,
        &mut subcols[..l],
        &mut subscale[..l],
        &mut subx[..l],
        &mut subfree[..l],
        &mut g[..l],
    );
    if p.at.frozen == 0 {
        round_free(x, &free[..]);
        fill(free, 0);
    }
    p
}
