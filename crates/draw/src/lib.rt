// The draws: the generator SplitMix64, the uniform and the Gaussian draw. The two series behind the Gaussian are crates of their own,
// cosine and logarithm.
#![tactic(auto)]

ghost use Rattle.std.specs.Prelude.{◌≡◌, ◌*◌, ◌%◌, ◌^◌};
ghost use Rattle.draw.specs.SplitMix.{mixed, seeded, output_of, after_of};
ghost use Rattle.draw.specs.Uniform.{uniform_of, uniform_in};
ghost use Rattle.draw.specs.Gaussian.{ln_of_draw, cos_of_draw, box_muller, gaussian_of, after_gaussian};
ghost use Rattle.draw.specs.Drawn.{Drawn};

use cosine::{cos, cos_sums, unit};
use logarithm::ln;
use root::sqrt;
use std::num::wrapping_add_u64;
use wide::lower;

// The generator: 64 bits of state, and the edition of its draws. Each draw moves it on in place.
#[derive(Clone, Copy)]
pub struct SplitMix64 {
    pub state: u64,
    pub edition: u32,
}

impl SplitMix64 {
    // The generator that starts at a seed.
    pub fn new(seed: u64, edition: u32) -> Self
        ensures { result ≡ seeded seed edition }
    {
        Self {
            state: seed,
            edition,
        }
    }

    // The next output.
    pub fn next_u64(&mut self) -> u64
        ensures { (result ≡ output_of self.old) × (self.new ≡ after_of self.old) }
    {
        let state = wrapping_add_u64(self.state, 0x9e37_79b9_7f4a_7c15);
        self.state = state;
        mix(state)
    }

    // The next uniform draw.
    pub fn uniform(&mut self) -> f64
        ensures { (result ≡ uniform_in self.old) × (self.new ≡ after_of self.old) }
    {
        let word = self.next_u64();
        uniform_of(self.edition, word)
    }

    // The next Gaussian draw: u1 is drawn, and then u2.
    pub fn gaussian(&mut self) -> f64
        ensures { (result ≡ gaussian_of self.old) × (self.new ≡ after_gaussian self.old) }
    {
        let u1 = self.uniform();
        let u2 = self.uniform();
        box_muller(u1, u2)
    }
}

// The Gaussian of two uniforms. The cosine is asked for as its two sums, in a struct, and before the root: the compiler leaves that call
// in its place, where the machine works it out beside the logarithm. It would put off a double to the end.
fn box_muller(u1: f64, u2: f64) -> f64
    requires { Drawn u1 × Drawn u2 }
    ensures { result ≡ box_muller u1 u2 }
{
    let l = ln(u1);
    let s = cos_sums(6.283185307179586 * u2);
    sqrt(-2.0 * l) * unit(s.plus, s.minus)
}

// u * v, modulo 2^64.
pub fn wrapping_mul(u: u64, v: u64) -> u64
    ensures { result ≡ u * v % 2 ^ 64 }
{
    lower(u, v)
}

// The output that a state is mixed to.
fn mix(state: u64) -> u64
    ensures { result ≡ mixed state }
{
    let once = wrapping_mul(state ^ (state >> 30), 0xbf58_476d_1ce4_e5b9);
    let twice = wrapping_mul(once ^ (once >> 27), 0x94d0_49bb_1331_11eb);
    twice ^ (twice >> 31)
}

// The uniform of an output: its upper 53 bits and a half, over 2^53, from 2^-54 up and at most 1. Edition 2 takes 52 bits, over 2^52,
// and is strictly between 0 and 1.
pub fn uniform_of(edition: u32, word: u64) -> f64
    ensures { result ≡ uniform_of edition word }
{
    if edition == 2 {
        (((word >> 12) as f64) + 0.5) / 4503599627370496.0
    } else {
        (((word >> 11) as f64) + 0.5) / 9007199254740992.0
    }
}

// The logarithm of the uniform of an output.
pub fn ln_of(edition: u32, word: u64) -> f64
    ensures { result ≡ ln_of_draw edition word }
{
    ln(uniform_of(edition, word))
}

// The cosine of TAU times the uniform of an output.
pub fn cos_of(edition: u32, word: u64) -> f64
    ensures { result ≡ cos_of_draw edition word }
{
    cos(6.283185307179586 * uniform_of(edition, word))
}
