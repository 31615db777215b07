// The product of two numbers of 64 bits, in two words, and how far one pair of words is above another.
#![tactic(auto)]

ghost use Rattle.std.specs.Prelude.{◌≡◌, ◌+◌, ◌-◌, ◌*◌, ◌/◌, ◌%◌, ◌^◌, ◌<◌, ◌≤◌};

// The upper 64 bits of u * v.
pub fn upper(u: u64, v: u64) -> u64
    ensures { result ≡ u * v / 2 ^ 64 }
{
    ((u as u128 * v as u128) >> 64) as u64
}

// The lower 64 bits of u * v.
pub fn lower(u: u64, v: u64) -> u64
    ensures { result ≡ u * v % 2 ^ 64 }
{
    u.wrapping_mul(v)
}

// n - p of numbers of two words each. An answer of 2^64 - 1 promises nothing: the difference may be negative, or of two words.
pub fn excess(n1: u64, n0: u64, p1: u64, p0: u64) -> u64
    requires { p1 < 2 ^ 64 - 1 }
    ensures { result < 2 ^ 64 - 1 → n1 * 2 ^ 64 + n0 ≡ p1 * 2 ^ 64 + p0 + result }
{
    let (rest, borrow) = n0.overflowing_sub(p0);
    if p1 + borrow as u64 == n1 {
        rest
    } else {
        0xffff_ffff_ffff_ffff
    }
}

// x / d, by a product: where d is a constant, the quotient of 2^64 by it is one too.
pub fn over(x: u64, d: u64) -> u64
    requires { (2 ≤ d) × (x * d < 2 ^ 64) }
    ensures { result ≡ x / d }
{
    upper(x, 0xffff_ffff_ffff_ffff / d + 1)
}
