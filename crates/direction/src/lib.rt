// A direction of the walk, and the step along it.
#![tactic(auto)]

ghost use Rattle.std.specs.Prelude.{◌≡◌, ◌++◌, ◌*◌, ◌+◌, length, drop};
ghost use Rattle.seq.specs.Lists.{part};
ghost use Rattle.direction.specs.Direction.{turned};
ghost use Rattle.direction.specs.Step.{reach_to, moved, along};

use ieee::{clamp, signum, smaller};

// Each entry negated, if so asked.
pub fn turn_if(v: &mut [f64], t: bool)
    ensures { v.new ≡ turned t v.old }
{
    if t {
        for x in v.iter_mut() {
            *x = -*x;
        }
    }
}

// The largest step that keeps every free coordinate in [-1, 1].
pub fn reach(x: &[f64], g: &[f64], free: &[u32]) -> f64
    requires { (length g.now ≡ length x.now) × (length free.now ≡ length x.now) }
    ensures { result ≡ reach_to x.now g.now free.now (length x.now) }
{
    let mut step = f64::INFINITY;
    for (p, &f) in free.iter().enumerate() {
        if f == 1 && g[p] != 0.0 {
            step = smaller(step, (signum(g[p]) - x[p]) / g[p]);
        }
    }
    step
}

// The free coordinates moved by t along g.
pub fn move_free(x: &mut [f64], t: f64, g: &[f64], free: &[u32])
    requires { (length g.now ≡ length x.old) × (length free.now ≡ length x.old) }
    ensures { x.new ≡ moved t x.old g.now free.now }
{
    for (p, x) in x.iter_mut().enumerate() {
        if free[p] == 1 {
            *x = clamp(*x + t * g[p], -1.0, 1.0);
        }
    }
}

// A x moved by t along A g: the first rows of both, and the next as many.
pub fn move_rows(both: &mut [f64], rows: usize, t: f64)
    requires { length both.old ≡ rows + rows }
    ensures { both.new ≡ along t (part 0 rows both.old) (part rows rows both.old) ++ drop
        rows both.old }
{
    let (ax, ag) = both.split_at_mut(rows);
    for (i, a) in ax.iter_mut().enumerate() {
        *a = *a + t * ag[i];
    }
}
