// What IEEE 754 and Rust have for doubles: magnitude, sign, order. Each function answers for every double, a NaN and the infinities
// included. Where the library's own differs, or promises less of two zeros or of a NaN, the body stands here.
#![tactic(auto)]

ghost use Rattle.std.specs.Prelude.{◌≡◌};
ghost use Rattle.std.specs.Float.Ieee.{le, lt};
ghost use Rattle.std.specs.Float.Ieee.Scale.{finite};
ghost use Rattle.ieee.specs.Magnitude.{abs_of, signum_of, clamp_of, larger_of, smaller_of, above_of};

// The magnitude of x: x where it is above zero, and elsewhere 0.0 - x, which for a zero is +0.0. Where it is compared, it compiles to the
// machine's own magnitude, which differs only in the sign of a NaN. The library's makes one test more.
pub fn abs(x: f64) -> f64
    ensures { result ≡ abs_of x }
{
    if x > 0.0 { x } else { 0.0 - x }
}

// Whether the magnitude of x is at most t.
pub fn at_most(x: f64, t: f64) -> bool
    ensures { result ≡ le (abs_of x) t }
{
    abs(x) <= t
}

// Whether it is below t.
pub fn under(x: f64, t: f64) -> bool
    ensures { result ≡ lt (abs_of x) t }
{
    abs(x) < t
}

// 1.0 with the sign of x, which a zero has too. A NaN stays a NaN.
pub fn signum(x: f64) -> f64
    ensures { result ≡ signum_of x }
{
    x.signum()
}

// x, moved up to lo or down to hi. A NaN stays a NaN.
pub fn clamp(x: f64, lo: f64, hi: f64) -> f64
    ensures { result ≡ clamp_of x lo hi }
{
    if x < lo {
        lo
    } else if x > hi {
        hi
    } else {
        x
    }
}

// The larger of x and y; the other one where one is a NaN, and x where they are equal.
pub fn larger(x: f64, y: f64) -> f64
    ensures { result ≡ larger_of x y }
{
    if x == x { if x < y { y } else { x } } else { y }
}

// The smaller of x and y; the other one where one is a NaN, and x where they are equal.
pub fn smaller(x: f64, y: f64) -> f64
    ensures { result ≡ smaller_of x y }
{
    if x == x { if x > y { y } else { x } } else { y }
}

// Whether a stands above b in the order by magnitude, in which a NaN stands above the infinities.
pub fn above(a: f64, b: f64) -> bool
    ensures { result ≡ above_of a b }
{
    if a == a { abs(b) < abs(a) } else { b == b }
}

// Whether x is neither a NaN nor an infinity.
pub fn is_finite(x: f64) -> bool
    ensures { result ≡ finite x }
{
    x.is_finite()
}
