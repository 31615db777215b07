// Vectors: dot, norm and max_abs, as 000 has them.
#![tactic(auto)]

ghost use Rattle.std.specs.Prelude.{◌≡◌, ◌≤◌, ◌*◌, ◌+◌, length};
ghost use Rattle.seq.specs.Sums.{plus_zero};
ghost use Rattle.linear.specs.Vectors.{dot_of, norm_of, max_abs_of};
ghost use Rattle.linear.specs.Larger.{NoLarger};

use ieee::{abs, larger};
use root::sqrt;

// The running sum of products, in order, from +0.0.
pub fn dot(a: &[f64], b: &[f64]) -> f64
    requires { length a.now ≤ length b.now }
    ensures { result ≡ dot_of plus_zero a.now b.now }
{
    a.iter().zip(b).fold(0.0, |sum, (x, y)| sum + *x * *y)
}

pub fn norm(a: &[f64]) -> f64
    ensures { result ≡ norm_of plus_zero a.now }
{
    sqrt(dot(a, a))
}

// The first place from `from` on whose magnitude is above `most`, or where the places end.
fn next_larger(a: &[f64], from: usize, most: f64) -> usize
    requires { from ≤ length a.now }
    ensures { NoLarger a.now most from result }
{
    for i in from..a.len() {
        if most < abs(a[i]) {
            return i;
        }
    }
    a.len()
}

// The largest magnitude, a NaN skipped; 0.0 of none. What is not above the largest so far is passed over, so that no place waits
// for the one before.
pub fn max_abs(a: &[f64]) -> f64
    ensures { result ≡ max_abs_of a.now }
{
    let mut most = 0.0;
    let mut i = next_larger(a, 0, most);
    while i < a.len() {
        most = larger(most, abs(a[i]));
        i = next_larger(a, i + 1, most);
    }
    most
}
