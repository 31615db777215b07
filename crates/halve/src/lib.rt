// One halving: the remaining rest is coloured, and its weights are doubled or zeroed.
#![tactic(auto)]

ghost use Rattle.std.specs.Prelude.{◌≡◌, ◌≤◌, length};
ghost use Rattle.seq.specs.Sums.{plus_zero};
ghost use Rattle.seq.specs.Indices.{Below};
ghost use Rattle.limits.specs.Reading.{read_of};
ghost use Rattle.halved.specs.Halve.{halved_once};
ghost use Rattle.halved.specs.Handed.{halves_of, Equipped, Ready, Countable, HalvesSome};

use colored::Counted;
use coloring::coloring;
use doubling::{double_or_zero, remaining_into, scales_into, sigma_of};

// Colours some indices and halves their weights; the tally with the colouring added. scale, x and blocked are scratch.
fn halve_some(
    matrix: &[f64],
    bits: &[u8],
    n: usize,
    w: &mut [f64],
    omega: f64,
    some: &[u32],
    scale: &mut [f64],
    x: &mut [f64],
    numbers: &mut [f64],
    blocked: &mut [u32],
    tally: Counted,
) -> Counted
    requires { Equipped matrix.now bits.now n w.old some.now scale.old x.old numbers.old blocked.old
        × Countable tally 1 }
    ensures { HalvesSome (read_of matrix.now bits.now n) n w.old omega some.now tally
        w.new result }
{
    scales_into(&mut scale[..], &w[..], omega, some);
    let c = coloring(
        matrix,
        bits,
        n,
        some,
        &scale[..],
        &mut x[..],
        numbers,
        blocked,
        tally.rng,
    );
    let sigma = sigma_of(&x[..]);
    double_or_zero(w, some, &x[..], sigma);
    Counted {
        directions: tally.directions + c.directions,
        sweeps: tally.sweeps + c.sweeps,
        rng: c.rng,
    }
}

// Colours the remaining rest and halves it, where there is any; the tally with the colouring added.
pub fn halve(
    matrix: &[f64],
    bits: &[u8],
    n: usize,
    w: &mut [f64],
    omega: f64,
    rest: &[u32],
    numbers: &mut [f64],
    indices: &mut [u32],
    tally: Counted,
) -> Counted
    requires { Ready matrix.now bits.now n w.old numbers.old indices.old × Below rest.now (length w.old)
        × (length rest.now ≤ length w.old) × Countable tally 1 }
    ensures { halves_of w.new result
        ≡ halved_once plus_zero (read_of matrix.now bits.now n) n omega rest.now
        (halves_of w.old tally) }
{
    let mut some = [0u32; 256];
    let mut scale = [0.0f64; 256];
    let mut x = [0.0f64; 256];
    let rows = n + 1;
    let k = remaining_into(&mut some[..], rest, &w[..]);
    if k == 0 {
        return tally;
    }
    halve_some(
        matrix,
        bits,
        n,
        w,
        omega,
        &some[..k],
        &mut scale[..k],
        &mut x[..k],
        numbers,
        &mut indices[..rows],
        tally,
    )
}
