// The stages followed within an allowance, and as far as a cap asks.
#![tactic(auto)]

ghost use Rattle.std.specs.Prelude.{◌≡◌, true, length};
ghost use Rattle.limits.specs.Limits.{bounded};
ghost use Rattle.limits.specs.Reading.{read_of};
ghost use Rattle.ieee.specs.Constants.{one};
ghost use Rattle.halved.specs.Handed.{Ready};
ghost use Rattle.stages.specs.Paths.{Followed};
ghost use Rattle.rules.specs.Rules.{rule_fault};
ghost use Rattle.rules.specs.declared.Rule.TheVariants.{Within};

use change::change_of;
use colored::Counted;
use draw::SplitMix64;
use stages::Path;
use trial::try_pass;
use tried::Outcome;
use weights::count_nonzeros;

// Passes until one measures above the allowance and the cap is met; the path to there. w and start are the normalized weights.
pub fn to_allowance(
    matrix: &[f64],
    bits: &[u8],
    n: usize,
    start: &[f64],
    w: &mut [f64],
    next: &mut [f64],
    numbers: &mut [f64],
    indices: &mut [u32],
    source: SplitMix64,
    allowance: f64,
    cap: Option<usize>,
) -> Path
    requires { Ready matrix.now bits.now n w.old numbers.old indices.old × (bounded one w.old ≡ true) × (w.old ≡ start.now)
        × (length next.old ≡ length w.old) × (rule_fault (Within allowance cap) ≡ 0) }
    ensures { Followed (read_of matrix.now bits.now n) n w.old source (Within allowance cap) result
        w.new }
{
    let mut tally = Counted {
        directions: 0,
        sweeps: 0,
        rng: source,
    };
    let mut stage = 0usize;
    let mut nonzeros = [0u64; 9];
    let mut change = [0.0f64; 9];
    let mut left = count_nonzeros(&w[..]);
    nonzeros[stage] = left as u64;
    change[stage] = change_of(matrix, bits, n, start, &w[..]);
    // A `while`: what ends it is the number of nonzeros. Each pass at least halves it, so that there are at most nine stages.
    while left > 1 {
        let t = try_pass(
            matrix,
            bits,
            n,
            start,
            &mut w[..],
            &mut next[..],
            &mut numbers[..],
            &mut indices[..],
            tally,
            allowance,
            cap,
        );
        tally = t.tally;
        if t.outcome == Outcome::Discarded {
            break;
        }
        stage += 1;
        left = count_nonzeros(&w[..]);
        nonzeros[stage] = left as u64;
        change[stage] = t.change;
        if t.outcome == Outcome::Last {
            break;
        }
    }
    Path {
        stage,
        directions: tally.directions,
        sweeps: tally.sweeps,
        nonzeros,
        change,
    }
}
