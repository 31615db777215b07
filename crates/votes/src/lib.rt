// What a column of bits, signing a number row by row, adds to a vector over the rows: row 0 is the lowest bit of byte 0, a set bit a minus.
#![tactic(auto)]

ghost use Rattle.std.specs.Prelude.{◌≡◌, ◌++◌, ◌≤◌, ◌<◌, ◌+◌, ◌*◌, ◌/◌, ◌%◌, length, drop};
ghost use Rattle.seq.specs.Lists.{tabulate};
ghost use Rattle.votes.specs.Signing.{pair_at, signed_at, added_four};

use spare::bit;

// The four signed pairs of t, in the order of their two bits.
pub fn signed_pairs(t: f64) -> [f64; 8]
    ensures { result ≡ tabulate (pair_at t) 8 }
{
    let m = -t;
    [t, t, m, t, t, m, m, m]
}

// acc + the four that the nibble v signs, from row r on. All is read before a row is written, so that it compiles to sums of pairs.
fn add_four(acc: &mut [f64], r: usize, pairs: &[f64; 8], v: usize)
    requires { (r + 4 ≤ length acc.old) × (v < 16) }
    ensures { acc.new ≡ added_four acc.old r pairs.now v }
{
    let a = acc[r] + pairs[2 * (v % 4)];
    let b = acc[r + 1] + pairs[2 * (v % 4) + 1];
    let c = acc[r + 2] + pairs[2 * (v / 4)];
    let d = acc[r + 3] + pairs[2 * (v / 4) + 1];
    acc[r] = a;
    acc[r + 1] = b;
    acc[r + 2] = c;
    acc[r + 3] = d;
}

// acc + t, signed by the bits, in the rows of the first k bytes.
fn add_bytes(acc: &mut [f64], column: &[u8], k: usize, t: f64)
    requires { (8 * k ≤ length acc.old) × (k ≤ length column.now) }
    ensures { acc.new ≡ tabulate (signed_at column.now t acc.old) (8 * k) ++ drop (8 * k)
        acc.old }
{
    let pairs = signed_pairs(t);
    for (i, byte) in column[..k].iter().enumerate() {
        let b = usize::from(*byte);
        add_four(acc, 8 * i, &pairs, b % 16);
        add_four(acc, 8 * i + 4, &pairs, b / 16);
    }
}

// acc + t, signed by the bits, in the first n rows.
pub fn add_signed(acc: &mut [f64], column: &[u8], n: usize, t: f64)
    requires { (n ≤ length acc.old) × (n ≤ 8 * length column.now) }
    ensures { acc.new ≡ tabulate (signed_at column.now t acc.old) n ++ drop n acc.old }
{
    let k = n / 8;
    add_bytes(acc, column, k, t);
    let either = [t, -t];
    for i in 8 * k..n {
        acc[i] += either[bit(usize::from(column[i / 8]), i % 8)];
    }
}
