// The cosine in fixed point, behind the Gaussian draw: from a double to its square, and from the series' sums back to a double.
#![tactic(auto)]

ghost use Rattle.std.specs.Prelude.{◌≡◌, ◌*◌, ◌^◌, ◌<◌, ◌≤◌};
ghost use Rattle.std.specs.Float.{binary64};
ghost use Rattle.std.specs.Float.Ieee.{to_bits};
ghost use Rattle.terms.specs.Turns.{CosAt};
ghost use Rattle.cosine.specs.Cosine.{scaled, square, cos_of};
ghost use Rattle.cosine.specs.Differences.{difference_of};

use terms::{CosTerms, cos_terms};
use wide::upper;

// t * 2^61, rounded down, of the double t with the bits b.
fn fixed(b: u64) -> u64
    requires { (952 * 2 ^ 52 ≤ b) × (b ≤ 0x401921FB54442D18) }
    ensures { result ≡ scaled b }
{
    let e = b >> 52;
    let m = (b & 0xf_ffff_ffff_ffff) + 0x10_0000_0000_0000;
    if e < 1014 {
        m >> (1014 - e)
    } else {
        m << (e - 1014)
    }
}

// (plus - minus) / 2^51, cut to -1 and 1. The difference is taken with 2^51 added, so that no branch asks for its sign.
pub fn unit(plus: u64, minus: u64) -> f64
    requires { plus < 2 ^ 62 }
    ensures { result ≡ difference_of plus minus }
{
    let above = (plus + 2251799813685248).saturating_sub(minus);
    let kept = above.min(4503599627370496);
    ((kept as f64) - 2251799813685248.0) / 2251799813685248.0
}

// The cosine's sums at t, for each t that a draw can meet.
pub fn cos_sums(t: f64) -> CosTerms
    requires { (952 * 2 ^ 52 ≤ to_bits binary64 t) × (to_bits binary64 t ≤ 0x401921FB54442D18) }
    ensures { CosAt (square (to_bits binary64 t)) 20 result × (result.plus < 2 ^ 62) }
{
    let x = fixed(f64::to_bits(t));
    cos_terms(upper(x, x))
}

// The cosine of t.
pub fn cos(t: f64) -> f64
    requires { (952 * 2 ^ 52 ≤ to_bits binary64 t) × (to_bits binary64 t ≤ 0x401921FB54442D18) }
    ensures { result ≡ cos_of t }
{
    let s = cos_sums(t);
    unit(s.plus, s.minus)
}
