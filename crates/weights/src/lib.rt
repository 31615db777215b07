// Weights: how many are not 0, the float sum of their magnitudes, and the division by it.
#![tactic(auto)]

ghost use Rattle.std.specs.Prelude.{◌≡◌};
ghost use Rattle.seq.specs.Sums.{plus_zero};
ghost use Rattle.weights.specs.Weights.{nonzeros, l1_of, normalized};

use ieee::abs;

// The float sum of the magnitudes.
pub fn l1(w: &[f64]) -> f64
    ensures { result ≡ l1_of plus_zero w.now }
{
    w.iter().fold(0.0, |sum, x| sum + abs(*x))
}

// Divides the weights by their sum of magnitudes.
pub fn normalize(w: &mut [f64])
    ensures { w.new ≡ normalized plus_zero w.old }
{
    let sum = l1(w);
    for x in w.iter_mut() {
        *x /= sum;
    }
}

// How many weights are not 0.
pub fn count_nonzeros(w: &[f64]) -> usize
    ensures { result ≡ nonzeros w.now }
{
    w.iter().filter(|x| **x != 0.0).count()
}
