// Two columns of bits added by their signed quadruples, a byte of each at a time.
#![tactic(auto)]

ghost use Rattle.std.specs.Prelude.{◌≡◌, ◌≤◌, ◌<◌, ◌+◌, ◌*◌, length};
ghost use Rattle.votes.specs.Signing.{added_twos};

// acc + two pairs of a table, at p and at q, and two of another, at x and at y, in order, from row r on. All is read before a row is
// written, so that it compiles to sums of pairs.
pub fn add_twos(
    acc: &mut [f64],
    r: usize,
    table: &[f64],
    p: usize,
    q: usize,
    others: &[f64],
    x: usize,
    y: usize,
)
    requires { (r + 4 ≤ length acc.old) × (p + 2 ≤ length table.now) × (q + 2 ≤ length table.now) × (x + 2 ≤ length others.now)
        × (y + 2 ≤ length others.now) }
    ensures { acc.new ≡ added_twos acc.old r table.now p q others.now x y }
{
    let a = (acc[r] + table[p]) + others[x];
    let b = (acc[r + 1] + table[p + 1]) + others[x + 1];
    let c = (acc[r + 2] + table[q]) + others[y];
    let d = (acc[r + 3] + table[q + 1]) + others[y + 1];
    acc[r] = a;
    acc[r + 1] = b;
    acc[r + 2] = c;
    acc[r + 3] = d;
}

// acc + the quadruples v and u of two tables, in order, from row r on.
pub fn add_two_quads(acc: &mut [f64], r: usize, quads: &[f64], v: usize, others: &[f64], u: usize)
    requires { (r + 4 ≤ length acc.old) × (v < 16) × (length quads.now ≡ 64) × (u < 16) × (length others.now ≡ 64) }
    ensures { acc.new ≡ added_twos acc.old r quads.now (4 * v) (4 * v + 2) others.now (4 * u)
        (4 * u + 2) }
{
    add_twos(acc, r, quads, 4 * v, 4 * v + 2, others, 4 * u, 4 * u + 2);
}
