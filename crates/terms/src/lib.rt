// The terms of the cosine's series and their two sums, in fixed point: by the plain way, and by a shorter one with a mark of doubt.
#![tactic(auto)]

ghost use Rattle.std.specs.Prelude.{◌+◌, ◌*◌, ◌^◌, ◌<◌, ◌≤◌};
ghost use Rattle.terms.specs.Turns.{CosAt, CosReady, CosTurned, NearAt, NearTurned};

use divisors::DIVISORS;
use wide::{lower, upper};

// The cosine's series: a term, the sum of the terms up to it that have its sign, and the sum of the others.
#[derive(Clone, Copy)]
pub struct CosTerms {
    pub term: u64,
    pub plus: u64,
    pub minus: u64,
}

// The next term, by its divisor d, and the sums with it.
fn cos_turn(s: CosTerms, z: u64, d: u64) -> CosTerms
    requires { CosReady z d s }
    ensures { CosTurned z d s result }
{
    let term = upper(s.term * 64, z) / d;
    CosTerms {
        term,
        plus: s.minus + term,
        minus: s.plus,
    }
}

// From the series' term K to the next: its divisor is a constant, so that the compiler makes the division a product.
fn cos_next<const K: usize>(s: CosTerms, z: u64) -> CosTerms
    requires { (K < 20) × (z ≤ 5 * 2 ^ 61) × CosAt z K s }
    ensures { CosAt z (K + 1) result }
{
    cos_turn(s, z, DIVISORS[K])
}

// The series to its fifth term.
fn cos_terms_to_5(z: u64) -> CosTerms
    requires { z ≤ 5 * 2 ^ 61 }
    ensures { CosAt z 5 result }
{
    let s = CosTerms {
        term: 2251799813685248,
        plus: 2251799813685248,
        minus: 0,
    };
    let s = cos_next::<0>(s, z);
    let s = cos_next::<1>(s, z);
    let s = cos_next::<2>(s, z);
    let s = cos_next::<3>(s, z);
    cos_next::<4>(s, z)
}

// And to its twentieth.
fn cos_terms_to_20(z: u64) -> CosTerms
    requires { z ≤ 5 * 2 ^ 61 }
    ensures { CosAt z 20 result }
{
    let s = cos_terms_to_5(z);
    let s = cos_next::<5>(s, z);
    let s = cos_next::<6>(s, z);
    let s = cos_next::<7>(s, z);
    let s = cos_next::<8>(s, z);
    let s = cos_next::<9>(s, z);
    let s = cos_next::<10>(s, z);
    let s = cos_next::<11>(s, z);
    let s = cos_next::<12>(s, z);
    let s = cos_next::<13>(s, z);
    let s = cos_next::<14>(s, z);
    let s = cos_next::<15>(s, z);
    let s = cos_next::<16>(s, z);
    let s = cos_next::<17>(s, z);
    let s = cos_next::<18>(s, z);
    cos_next::<19>(s, z)
}

// The same series by a shorter way, and a mark: while `doubt` is below 2^63, each term is right.
#[derive(Clone, Copy)]
struct NearTerms {
    terms: CosTerms,
    doubt: u64,
}

// A number at most z * 64 / d, and less than 2 below it: the upper word of z by the whole part of 2^70 / d.
fn share(z: u64, d: u64) -> u64
    requires { (64 < d) × (d < 2 ^ 32) }
    ensures { (result * d ≤ z * 64) × (z * 64 < (result + 2) * d) }
{
    let whole = 0xffff_ffff_ffff_ffff / d;
    let more = (0xffff_ffff_ffff_ffff % d + 1) * 64 / d;
    upper(z, whole * 64 + more)
}

// The next term by one product with the share, which does not wait for the term before. The product is less than two terms short of
// the exact one, so its upper word is right unless two terms more would carry into it: then half the sum has its highest bit set.
fn near_turn(n: NearTerms, z: u64, d: u64) -> NearTerms
    requires cos_ready { CosReady z d n.terms }
    requires lt_d { (64 < d) × (d < 2 ^ 32) }
    ensures { NearTurned z d n result }
{
    let s = n.terms;
    let y = share(z, d);
    let term = upper(s.term, y);
    let reach = lower(s.term, y) / 2 + s.term;
    NearTerms {
        terms: CosTerms {
            term,
            plus: s.minus + term,
            minus: s.plus,
        },
        doubt: n.doubt | reach,
    }
}

// From its term K to the next by the shorter way.
fn near_next<const K: usize>(n: NearTerms, z: u64) -> NearTerms
    requires { (5 ≤ K) × (K < 20) × (z ≤ 5 * 2 ^ 61) × NearAt z K n }
    ensures { NearAt z (K + 1) result }
{
    near_turn(n, z, DIVISORS[K])
}

// The series by the shorter way from its fifth term to its nineteenth.
fn near_terms_to_19(z: u64) -> NearTerms
    requires { z ≤ 5 * 2 ^ 61 }
    ensures { NearAt z 19 result }
{
    let n = NearTerms {
        terms: cos_terms_to_5(z),
        doubt: 0,
    };
    let n = near_next::<5>(n, z);
    let n = near_next::<6>(n, z);
    let n = near_next::<7>(n, z);
    let n = near_next::<8>(n, z);
    let n = near_next::<9>(n, z);
    let n = near_next::<10>(n, z);
    let n = near_next::<11>(n, z);
    let n = near_next::<12>(n, z);
    let n = near_next::<13>(n, z);
    let n = near_next::<14>(n, z);
    let n = near_next::<15>(n, z);
    let n = near_next::<16>(n, z);
    let n = near_next::<17>(n, z);
    near_next::<18>(n, z)
}

// The series to its twentieth term, which is 0: by the shorter way, and where that leaves a doubt by the plain one.
pub fn cos_terms(z: u64) -> CosTerms
    requires { z ≤ 5 * 2 ^ 61 }
    ensures { CosAt z 20 result }
{
    let n = near_terms_to_19(z);
    if n.doubt < 9223372036854775808 {
        let s = n.terms;
        CosTerms {
            term: 0,
            plus: s.minus,
            minus: s.plus,
        }
    } else {
        cos_terms_to_20(z)
    }
}
