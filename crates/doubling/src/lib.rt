// What a halving does beside the colouring: the indices that remain, their scales, the colour of at most half, and the doubled weights.
#![tactic(auto)]

ghost use Rattle.std.specs.Prelude.{◌≡◌, ◌≤◌, length};
ghost use Rattle.seq.specs.Lists.{tabulate};
ghost use Rattle.seq.specs.Indices.{Pushed, Below};
ghost use Rattle.doubling.specs.Doubling.{remaining, scale_at, sigma_of, halved_to};

// The remaining rest at the front of out; how many.
pub fn remaining_into(out: &mut [u32], rest: &[u32], w: &[f64]) -> usize
    requires { (length rest.now ≤ length out.old) × Below rest.now (length w.now) }
    ensures { Pushed (remaining w.now rest.now) result out.new }
{
    let mut k = 0usize;
    for j in rest {
        if w[*j as usize] != 0.0 {
            out[k] = *j;
            k += 1;
        }
    }
    k
}

// The weights of some indices over ω.
pub fn scales_into(scale: &mut [f64], w: &[f64], omega: f64, rest: &[u32])
    requires { (length scale.old ≡ length rest.now) × Below rest.now (length w.now) }
    ensures { scale.new ≡ tabulate (scale_at w.now omega rest.now) (length rest.now) }
{
    for (p, j) in rest.iter().enumerate() {
        scale[p] = w[*j as usize] / omega;
    }
}

// The colour of at most half of them.
pub fn sigma_of(x: &[f64]) -> f64
    requires { length x.now ≤ 256 }
    ensures { result ≡ sigma_of x.now }
{
    let plus = x.iter().filter(|c| **c > 0.0).count();
    if 2 * plus <= x.len() { 1.0 } else { -1.0 }
}

// Doubles the weights of some indices where their colour is σ, and puts 0.0 elsewhere.
pub fn double_or_zero(w: &mut [f64], rest: &[u32], x: &[f64], sigma: f64)
    requires { (length x.now ≡ length rest.now) × Below rest.now (length w.old) }
    ensures { w.new ≡ halved_to w.old rest.now x.now sigma (length rest.now) }
{
    for (j, c) in rest.iter().zip(x) {
        let j = *j as usize;
        w[j] = if *c == sigma { 2.0 * w[j] } else { 0.0 };
    }
}
