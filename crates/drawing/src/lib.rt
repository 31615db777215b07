// A direction drawn: a Gaussian for every coordinate of the phase, frozen ones zeroed, and its part along the basis taken out.
#![tactic(auto)]

ghost use Rattle.std.specs.Prelude.{◌≡◌, ◌≤◌, ◌*◌, ◌+◌, length};
ghost use Rattle.seq.specs.Sums.{plus_zero};
ghost use Rattle.basis.specs.Held.{vectors_in};
ghost use Rattle.direction.specs.Direction.{after_draws, drawn, zeroed};
ghost use Rattle.direction.specs.Directing.{DirectedFrom};

use basis::project_out;
use draw::SplitMix64;
use linear::norm;

// Fills g with draws, in order.
pub fn draw_into(g: &mut [f64], rng: &mut SplitMix64)
    ensures { (g.new ≡ drawn rng.old (length g.old)) × (rng.new ≡ after_draws rng.old (length g.old)) }
{
    for x in g.iter_mut() {
        *x = rng.gaussian();
    }
}

// 0.0 at each place of g that is not free.
fn zero_frozen(g: &mut [f64], free: &[u32])
    requires { length free.now ≡ length g.old }
    ensures { g.new ≡ zeroed free.now g.old }
{
    for (p, x) in g.iter_mut().enumerate() {
        if free[p] != 1 {
            *x = 0.0;
        }
    }
}

// Projects the draws in g and zeroes them at the frozen places; whether too little is left.
pub fn direct(basis: &[f64], count: usize, l: usize, free: &[u32], g: &mut [f64]) -> bool
    requires { (length g.old ≡ l) × (length free.now ≡ l) × (count * l ≤ length basis.now) }
    ensures { DirectedFrom plus_zero (vectors_in l count basis.now) free.now g.old result
        g.new }
{
    let drawn_norm = norm(&g[..]);
    project_out(basis, count, l, g);
    zero_frozen(&mut g[..], free);
    norm(&g[..]) <= 1e-9 * drawn_norm
}
