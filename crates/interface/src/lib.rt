// What the C interface has of its own: the version, draws that move a state on in place, and a cap by the number that a host names.
#![tactic(auto)]

ghost use Rattle.std.specs.Prelude.{◌≡◌};
ghost use Rattle.interface.specs.Version.{version_number};
ghost use Rattle.interface.specs.Caps.{cap_of};
ghost use Rattle.interface.specs.Draws.{UniformDrawn, GaussianDrawn};

use draw::SplitMix64;

// The version of the library: that of the file VERSION.
pub fn version() -> u64
    ensures { result ≡ version_number 0 1 0 }
{
    1000
}

// The next uniform draw by an edition; the state moves on.
pub fn next_uniform(state: &mut u64, edition: u32) -> f64
    ensures { UniformDrawn state.old edition result state.new }
{
    let mut rng = SplitMix64::new(*state, edition);
    let u = rng.uniform();
    *state = rng.state;
    u
}

// The next Gaussian draw by an edition; the state moves on.
pub fn next_gaussian(state: &mut u64, edition: u32) -> f64
    ensures { GaussianDrawn state.old edition result state.new }
{
    let mut rng = SplitMix64::new(*state, edition);
    let d = rng.gaussian();
    *state = rng.state;
    d
}

// The cap that a host names: none where `capped` is 0.
pub fn cap_of(capped: u32, cap: usize) -> Option<usize>
    ensures { result ≡ cap_of capped cap }
{
    if capped == 0 { None } else { Some(cap) }
}
