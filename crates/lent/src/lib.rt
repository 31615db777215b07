// The generator lent: each draw moves it on in place, as 000's do. Whoever calls `two_gaussians` takes and gives plain data.
#![tactic(auto)]

ghost use Rattle.std.specs.Prelude.{◌≡◌};
ghost use Rattle.draw.specs.SplitMix.{seeded, output_of, after_of};
ghost use Rattle.draw.specs.Uniform.{uniform_in};
ghost use Rattle.draw.specs.Gaussian.{gaussian_of, after_gaussian};

use draw::SplitMix64;

// The generator that is lent, of either edition.
#[derive(Clone, Copy)]
pub struct Generator {
    pub rng: SplitMix64,
}

impl Generator {
    // The next output.
    pub fn next_u64(&mut self) -> u64
        ensures { (result ≡ output_of self.old.rng) × (self.new.rng ≡ after_of self.old.rng) }
    {
        self.rng.next_u64()
    }

    // The next uniform draw.
    pub fn uniform(&mut self) -> f64
        ensures { (result ≡ uniform_in self.old.rng)
            × (self.new.rng ≡ after_of self.old.rng) }
    {
        self.rng.uniform()
    }

    // The next Gaussian draw.
    pub fn gaussian(&mut self) -> f64
        ensures { (result ≡ gaussian_of self.old.rng)
            × (self.new.rng ≡ after_gaussian self.old.rng) }
    {
        self.rng.gaussian()
    }
}

// Two draws, in their order.
#[derive(Clone, Copy)]
pub struct Pair {
    pub first: f64,
    pub second: f64,
}

// The first two Gaussian draws of a seed, by the edition.
pub fn two_gaussians(seed: u64, edition: u32) -> Pair
    ensures { (result.first ≡ gaussian_of (seeded seed edition)) × (result.second ≡ gaussian_of (after_gaussian (seeded seed edition))) }
{
    let mut generator = Generator {
        rng: SplitMix64::new(seed, edition),
    };
    let first = generator.gaussian();
    let second = generator.gaussian();
    Pair { first, second }
}
