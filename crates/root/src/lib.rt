// The square root, which IEEE 754 and Rust have for doubles and the language lacks. It answers for every double, a NaN and the infinities
// included. Of a positive finite double it is found on bit patterns: an integer root by a guess that is tested, and the plain digit loop
// where the test fails.
#![tactic(auto)]

ghost use Rattle.std.specs.Prelude.{◌≡◌, ◌+◌, ◌*◌, ◌^◌, ◌≤◌, ◌<◌};
ghost use Rattle.std.specs.Float.Ieee.{of_bits};
ghost use Rattle.std.specs.Float.{binary64};
ghost use Rattle.root.specs.Root.{sqrt_of, root_of};
ghost use Rattle.root.specs.Inner.{Normal};

use digits::digits;

// m * 2^j
#[derive(Clone, Copy)]
struct Spread {
    m: u64,
    j: u64,
}

// t * 2^k as m * 2^j / 2^52, with all of 53 digits in m.
fn normal(t: u64, k: u64) -> Spread
    requires { (0 < t) × (t < 2 ^ 53) × (k ≤ 2045) }
    ensures { Normal t k result.m result.j }
{
    let mut m = t;
    let mut j = k + 52;
    while m < 4503599627370496 {
        m = 2 * m;
        j = j - 1;
    }
    Spread { m, j }
}

// The bit pattern of the root of t * 2^k times the smallest positive value.
fn scaled(t: u64, k: u64) -> u64
    requires { (0 < t) × (t < 2 ^ 53) × (k ≤ 2045) }
    ensures { (result < 0x7ff0_0000_0000_0000) × (of_bits binary64 result ≡ root_of (t * 2 ^ k)) }
{
    let s = normal(t, k);
    let h = s.j / 2;
    let mut m = s.m;
    if s.j % 2 == 1 {
        m = 2 * m;
    }
    let q = digits(m);
    (h + 485) * 4503599627370496 + (q + 1) / 2
}

// The bit pattern of the root of the value whose bit pattern is b: positive and finite.
fn pattern(b: u64) -> u64
    requires { (0 < b) × (b < 0x7ff0_0000_0000_0000) }
    ensures { (result < 0x7ff0_0000_0000_0000) × (of_bits binary64 result ≡ sqrt_of (of_bits binary64 b)) }
{
    let e = b / 4503599627370496;
    let t = b % 4503599627370496;
    if e == 0 {
        scaled(t, 0)
    } else {
        scaled(t + 4503599627370496, e - 1)
    }
}

// The square root of x: the double nearest to it. A zero stays as it is, and below zero it is a NaN.
pub fn sqrt(x: f64) -> f64
    ensures { result ≡ sqrt_of x }
{
    if x > 0.0 {
        let b = f64::to_bits(x);
        if b == 0x7ff0_0000_0000_0000 {
            x
        } else {
            f64::from_bits(pattern(b))
        }
    } else if x == 0.0 {
        x
    } else {
        0.0 / 0.0
    }
}
