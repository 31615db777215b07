// The stages followed to a target.
#![tactic(auto)]

ghost use Rattle.std.specs.Prelude.{◌≡◌, ◌<◌, true};
ghost use Rattle.limits.specs.Limits.{bounded};
ghost use Rattle.limits.specs.Reading.{read_of};
ghost use Rattle.ieee.specs.Constants.{one};
ghost use Rattle.halved.specs.Handed.{Ready};
ghost use Rattle.stages.specs.Paths.{Followed};
ghost use Rattle.rules.specs.declared.Rule.TheVariants.{Target};

use change::change_of;
use colored::Counted;
use draw::SplitMix64;
use halving::halving_pass;
use stages::Path;
use weights::count_nonzeros;

// Passes until at most so many entries are not 0; the path to there. w and start are the normalized weights.
pub fn to_target(
    matrix: &[f64],
    bits: &[u8],
    n: usize,
    start: &[f64],
    w: &mut [f64],
    numbers: &mut [f64],
    indices: &mut [u32],
    source: SplitMix64,
    target: usize,
) -> Path
    requires { Ready matrix.now bits.now n w.old numbers.old indices.old × (bounded one w.old ≡ true) × (w.old ≡ start.now)
        × (0 < target) }
    ensures { Followed (read_of matrix.now bits.now n) n w.old source (Target target) result
        w.new }
{
    let mut tally = Counted {
        directions: 0,
        sweeps: 0,
        rng: source,
    };
    let mut stage = 0usize;
    let mut nonzeros = [0u64; 9];
    let mut change = [0.0f64; 9];
    let mut left = count_nonzeros(&w[..]);
    nonzeros[stage] = left as u64;
    change[stage] = change_of(matrix, bits, n, start, &w[..]);
    // A `while`: what ends it is the number of nonzeros. Each pass at least halves it, so that there are at most nine stages.
    while left > target {
        tally = halving_pass(
            matrix,
            bits,
            n,
            &mut w[..],
            &mut numbers[..],
            &mut indices[..],
            tally,
        );
        stage += 1;
        left = count_nonzeros(&w[..]);
        nonzeros[stage] = left as u64;
        change[stage] = change_of(matrix, bits, n, start, &w[..]);
    }
    Path {
        stage,
        directions: tally.directions,
        sweeps: tally.sweeps,
        nonzeros,
        change,
    }
}
