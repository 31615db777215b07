// The logarithm's series in fixed point, behind the Gaussian draw.
#![tactic(auto)]

ghost use Rattle.std.specs.Prelude.{◌≡◌, ◌+◌, ◌*◌, ◌^◌, ◌<◌, ◌≤◌};
ghost use Rattle.std.specs.Float.{binary64};
ghost use Rattle.std.specs.Float.Ieee.{to_bits};
ghost use Rattle.logarithm.specs.Logarithm.{ratio, ratio_square, odd_sum, ln_of};
ghost use Rattle.logarithm.specs.Turns.{LnAt, LnReady, LnTurned};

use divisors::DIVISORS;
use wide::{excess, lower, over, upper};

// f * 2^50 / (f + 2^53), by five steps of long division in base 1024.
fn long_division(f: u64) -> u64
    requires { f < 2 ^ 52 }
    ensures { result ≡ ratio f }
{
    let den = f + 0x20_0000_0000_0000;
    let mut q: u64 = 0;
    let mut rest = f;
    for _k in 0..5u32 {
        let x = rest * 1024;
        q = q * 1024 + x / den;
        rest = x % den;
    }
    q
}

// A number near f * 2^50 / (f + 2^53): the sum has one unit in its last place, so the quotient's whole part is its fraction field.
// Nothing is promised of it: who asks tests it.
fn near_ratio(f: u64) -> u64
    requires { f < 2 ^ 52 }
{
    let x = f as f64;
    let sum = x / (x + 9007199254740992.0) * 1125899906842624.0 + 4503599627370495.5;
    if sum > 0.0 { f64::to_bits(sum) } else { 0 }
}

// f * 2^50 / (f + 2^53): a guess, where the exact rest says that it is right.
fn ratio_of(f: u64) -> u64
    requires { f < 2 ^ 52 }
    ensures { result ≡ ratio f }
{
    let den = f + 0x20_0000_0000_0000;
    let g = near_ratio(f) % 4503599627370496;
    let rest = excess(f >> 14, f << 50, upper(g, den), lower(g, den));
    if rest < den { g } else { long_division(f) }
}

// The logarithm's series: a power, and the sum of the powers below it, each by its divisor.
#[derive(Clone, Copy)]
struct LnTerms {
    power: u64,
    sum: u64,
}

// The next power, and the sum with this one, by its divisor d.
fn ln_turn(s: LnTerms, w: u64, d: u64) -> LnTerms
    requires { LnReady d s }
    ensures { LnTurned w d s result }
{
    LnTerms {
        power: upper(s.power, w),
        sum: s.sum + over(s.power, d),
    }
}

// A ratio, and its square as a part of 2^64: they go through the series together.
#[derive(Clone, Copy)]
struct Ratio {
    q: u64,
    w: u64,
    ghost small: { q < 2 ^ 49 },
    ghost square: { w ≡ ratio_square q },
}

// From the series' power K to the next: its divisor is a constant, so that the compiler makes a division by it a product.
fn ln_next<const K: usize>(s: LnTerms, r: Ratio) -> LnTerms
    requires { (1 ≤ K) × (K < 17) × LnAt r.q K s }
    ensures { LnAt r.q (K + 1) result }
{
    ln_turn(s, r.w, DIVISORS[20 + K])
}

// The series to its sixteenth power. The first power needs no turn.
fn ln_terms(r: Ratio) -> LnTerms
    ensures { LnAt r.q 16 result }
{
    let first = r.q * 512;
    let s = LnTerms {
        power: upper(first, r.w),
        sum: first / DIVISORS[20],
    };
    let s = ln_next::<1>(s, r);
    let s = ln_next::<2>(s, r);
    let s = ln_next::<3>(s, r);
    let s = ln_next::<4>(s, r);
    let s = ln_next::<5>(s, r);
    let s = ln_next::<6>(s, r);
    let s = ln_next::<7>(s, r);
    let s = ln_next::<8>(s, r);
    let s = ln_next::<9>(s, r);
    let s = ln_next::<10>(s, r);
    let s = ln_next::<11>(s, r);
    let s = ln_next::<12>(s, r);
    let s = ln_next::<13>(s, r);
    let s = ln_next::<14>(s, r);
    ln_next::<15>(s, r)
}

// The logarithm's sum, A(s) * 2^58, of q, which is s * 2^50: the powers that add nothing are left out.
fn odd_sum(q: u64) -> u64
    requires { 3 * q ≤ 2 ^ 50 }
    ensures { result ≡ odd_sum q 21 }
{
    let s = q * 16384;
    let o = ln_terms(Ratio { q, w: upper(s, s) });
    o.sum + over(o.power, DIVISORS[36])
}

// The logarithm of u, for each u that a draw can meet.
pub fn ln(u: f64) -> f64
    requires { (969 * 2 ^ 52 ≤ to_bits binary64 u) × (to_bits binary64 u ≤ 1023 * 2 ^ 52) }
    ensures { result ≡ ln_of u }
{
    let b = f64::to_bits(u);
    let total = (1023 - (b >> 52)) * 199786072581291495;
    let depth = (total - odd_sum(ratio_of(b & 0xf_ffff_ffff_ffff))) >> 11;
    if depth == 0 {
        0.0
    } else {
        -((depth as f64) / 140737488355328.0)
    }
}
