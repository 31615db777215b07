// Two columns of bits added at a time.
#![tactic(auto)]

ghost use Rattle.std.specs.Prelude.{◌≡◌, ◌++◌, ◌≤◌, ◌<◌, ◌+◌, ◌*◌, ◌/◌, ◌%◌, length, drop};
ghost use Rattle.seq.specs.Lists.{tabulate};
ghost use Rattle.votes.specs.Signing.{signed_two, added_twos};

use quadruples::add_two_long;
use quads::add_twos;
use spare::bit;
use votes::signed_pairs;

// acc + the fours of two columns that the nibbles v and u sign, in order, from row r on.
fn add_fours(acc: &mut [f64], r: usize, pairs: &[f64; 8], v: usize, others: &[f64; 8], u: usize)
    requires { (r + 4 ≤ length acc.old) × (v < 16) × (u < 16) }
    ensures { acc.new ≡ added_twos acc.old r pairs.now (2 * (v % 4)) (2 * (v / 4)) others.now
        (2 * (u % 4)) (2 * (u / 4)) }
{
    add_twos(
        acc,
        r,
        pairs,
        2 * (v % 4),
        2 * (v / 4),
        others,
        2 * (u % 4),
        2 * (u / 4),
    );
}

// acc + t + u, each signed by the bits of its column, in the rows of the first k bytes.
fn add_two_pairs(acc: &mut [f64], first: &[u8], t: f64, second: &[u8], u: f64, k: usize)
    requires { (8 * k ≤ length acc.old) × (k ≤ length first.now) × (k ≤ length second.now) }
    ensures { acc.new ≡ tabulate (signed_two first.now t second.now u acc.old)
        (8 * k) ++ drop (8 * k) acc.old }
{
    let pairs = signed_pairs(t);
    let others = signed_pairs(u);
    for i in 0..k {
        let b = usize::from(first[i]);
        let c = usize::from(second[i]);
        add_fours(acc, 8 * i, &pairs, b % 16, &others, c % 16);
        add_fours(acc, 8 * i + 4, &pairs, b / 16, &others, c / 16);
    }
}

// By quadruples where the columns are long enough to be worth the table.
fn add_two_bytes(acc: &mut [f64], first: &[u8], t: f64, second: &[u8], u: f64, k: usize)
    requires { (8 * k ≤ length acc.old) × (k ≤ length first.now) × (k ≤ length second.now) }
    ensures { acc.new ≡ tabulate (signed_two first.now t second.now u acc.old)
        (8 * k) ++ drop (8 * k) acc.old }
{
    if k < 64 {
        add_two_pairs(acc, first, t, second, u, k);
    } else {
        add_two_long(acc, first, t, second, u, k);
    }
}

// acc + t + u, each signed by the bits of its column, in the first n rows.
pub fn add_two_signed(acc: &mut [f64], first: &[u8], t: f64, second: &[u8], u: f64, n: usize)
    requires { (n ≤ length acc.old) × (n ≤ 8 * length first.now) × (n ≤ 8 * length second.now) }
    ensures { acc.new ≡ tabulate (signed_two first.now t second.now u acc.old) n ++ drop n
        acc.old }
{
    let k = n / 8;
    add_two_bytes(acc, first, t, second, u, k);
    let either = [t, -t];
    let other = [u, -u];
    for i in 8 * k..n {
        let a = either[bit(usize::from(first[i / 8]), i % 8)];
        let b = other[bit(usize::from(second[i / 8]), i % 8)];
        acc[i] = (acc[i] + a) + b;
    }
}
