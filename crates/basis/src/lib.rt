// An orthonormal basis that stands vector after vector in a slice: Basis with project_out and insert, as 000 has them.
#![tactic(auto)]

ghost use Rattle.std.specs.Prelude.{◌≡◌, ◌≤◌, ◌*◌, ◌+◌, length};
ghost use Rattle.seq.specs.Lists.{tabulate};
ghost use Rattle.seq.specs.Sums.{plus_zero};
ghost use Rattle.basis.specs.Basis.{less_at, pass_to, projected, over_at};
ghost use Rattle.basis.specs.Held.{vectors_in, LessAndAlong, Inserted};

use linear::{dot, norm};

// One pass over the first count vectors, each l long. While v loses its part along one vector, its part along the next is summed.
fn pass(basis: &[f64], count: usize, l: usize, v: &mut [f64])
    requires { (length v.old ≡ l) × (count * l ≤ length basis.now) }
    ensures { v.new ≡ pass_to plus_zero (vectors_in l count basis.now) v.old count }
{
    if count == 0 {
        return;
    }
    let mut c = dot(&basis[..l], &v[..]);
    for k in 0..count - 1 {
        let a = k * l;
        let m = a + l;
        let e = m + l;
        c = less_then_dot(v, c, &basis[a..m], &basis[m..e]);
    }
    let a = (count - 1) * l;
    let e = a + l;
    less_scaled(v, c, &basis[a..e]);
}

// v - c q, and what is left of v along r.
fn less_then_dot(v: &mut [f64], c: f64, q: &[f64], r: &[f64]) -> f64
    requires { (length v.old ≡ length q.now) × (length r.now ≡ length q.now) }
    ensures { LessAndAlong plus_zero v.old c q.now r.now result v.new }
{
    let mut along = 0.0;
    for (i, x) in v.iter_mut().enumerate() {
        let w = *x - c * q[i];
        *x = w;
        along = along + r[i] * w;
    }
    along
}

// v - c q.
fn less_scaled(v: &mut [f64], c: f64, q: &[f64])
    requires { length v.old ≡ length q.now }
    ensures { v.new ≡ tabulate (less_at c q.now v.old) (length v.old) }
{
    for (i, x) in v.iter_mut().enumerate() {
        *x = *x - c * q[i];
    }
}

// Over the count vectors of the basis, each l long, and over them once more: the second pass takes what rounding left in the first.
pub fn project_out(basis: &[f64], count: usize, l: usize, v: &mut [f64])
    requires { (length v.old ≡ l) × (count * l ≤ length basis.now) }
    ensures { v.new ≡ projected plus_zero (vectors_in l count basis.now) v.old }
{
    pass(basis, count, l, v);
    pass(basis, count, l, v);
}

// w / d.
fn over(to: &mut [f64], d: f64, w: &[f64])
    requires { length to.old ≡ length w.now }
    ensures { to.new ≡ tabulate (over_at d w.now) (length w.now) }
{
    for (i, x) in to.iter_mut().enumerate() {
        *x = w[i] / d;
    }
}

// Offers v to the basis of count vectors, each l long; the new count. A full basis takes none. v is used up.
pub fn insert(basis: &mut [f64], count: usize, l: usize, v: &mut [f64]) -> usize
    requires { (length v.old ≡ l) × (l * l ≤ length basis.old) × (count ≤ l) × (l ≤ 256) }
    ensures { Inserted plus_zero count l basis.old v.old result basis.new }
{
    if count >= l {
        return count;
    }
    let original = norm(&v[..]);
    if original == 0.0 {
        return count;
    }
    project_out(&basis[..], count, l, v);
    let remaining = norm(&v[..]);
    if remaining <= 1e-10 * original {
        return count;
    }
    let end = count * l;
    let stop = end + l;
    over(&mut basis[end..stop], remaining, &v[..]);
    count + 1
}
