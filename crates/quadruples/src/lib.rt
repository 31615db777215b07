// The sixteen signed quadruples of two numbers, made once for two columns of bits, and the columns added by them.
#![tactic(auto)]

ghost use Rattle.std.specs.Prelude.{◌≡◌, ◌++◌, ◌≤◌, ◌<◌, ◌+◌, ◌*◌, ◌/◌, ◌%◌, length, drop};
ghost use Rattle.seq.specs.Lists.{tabulate};
ghost use Rattle.votes.specs.Signing.{quad_at, signed_two};

use quads::add_two_quads;

// The sixteen signed quadruples of t, in the order of their four bits.
fn signed_quads(t: f64) -> [f64; 64]
    ensures { result ≡ tabulate (quad_at t) 64 }
{
    let m = -t;
    [
        t, t, t, t, m, t, t, t, t, m, t, t, m, m, t, t, t, t, m, t, m, t, m, t, t, m, m, t, m, m,
        m, t, t, t, t, m, m, t, t, m, t, m, t, m, m, m, t, m, t, t, m, m, m, t, m, m, t, m, m, m,
        m, m, m, m,
    ]
}

// The same as `add_two_pairs`, by quadruples: a larger table, and fewer reads of it.
pub fn add_two_long(acc: &mut [f64], first: &[u8], t: f64, second: &[u8], u: f64, k: usize)
    requires { (8 * k ≤ length acc.old) × (k ≤ length first.now) × (k ≤ length second.now) }
    ensures { acc.new ≡ tabulate (signed_two first.now t second.now u acc.old)
        (8 * k) ++ drop (8 * k) acc.old }
{
    let quads = signed_quads(t);
    let others = signed_quads(u);
    for i in 0..k {
        let b = usize::from(first[i]);
        let c = usize::from(second[i]);
        add_two_quads(acc, 8 * i, &quads, b % 16, &others, c % 16);
        add_two_quads(acc, 8 * i + 4, &quads, b / 16, &others, c / 16);
    }
}
