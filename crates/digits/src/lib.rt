// The digits of a root: guessed and tested, or found one by one.
#![tactic(auto)]

ghost use Rattle.std.specs.Prelude.{◌+◌, ◌*◌, ◌^◌, ◌<◌, ◌≤◌};

use std::num::{wrapping_add_u64, wrapping_sub_u64};
use wide::{excess, lower, upper};

// The largest q with q * q <= m * 2^54, one binary digit a turn. Of m's 27 pairs of digits a turn
// takes the upper one off `rest`; after 27 turns the pairs are 0.
fn digit_by_digit(m: u64) -> u64
    requires { m < 2 ^ 54 }
    ensures { (result * result ≤ m * 2 ^ 54) × (m * 2 ^ 54 < (result + 1) * (result + 1)) }
{
    let mut rest = m;
    let mut q: u64 = 0;
    let mut rem: u64 = 0;
    for turn in 0..54usize {
        let r = 4 * rem + rest / 4503599627370496;
        rest = 4 * (rest % 4503599627370496);
        if 4 * q + 1 <= r {
            rem = r - (4 * q + 1);
            q = 2 * q + 1;
        } else {
            rem = r;
            q = 2 * q;
        }
    }
    q
}

// For a below 1 and at least 1/4, as a * 2^64: the root's reciprocal to one part in 40, as y * 2^62.
fn first_reciprocal(a: u64) -> u64 {
    let slope = wrapping_sub_u64(15150996613074601984, upper(a, 7556502140619313152));
    wrapping_sub_u64(12317060040861898752, upper(a, slope))
}

// Newton's step, y * (3 - a * y * y) / 2.
fn nearer_reciprocal(a: u64, y: u64) -> u64 {
    upper(
        y,
        wrapping_sub_u64(3458764513820540928, upper(upper(y, y), a)),
    ) << 3
}

// The root itself, by the series of 1 / sqrt(1 - e) at e = 1 - a * y * y, rounded down to 54 digits.
fn root_by_reciprocal(a: u64, y: u64) -> u64 {
    let s = upper(a, y) << 1;
    let e = wrapping_sub_u64(1152921504606846976, upper(upper(y, y), a)) << 4;
    let square = upper(e, e);
    let more = upper(
        s,
        wrapping_add_u64(e >> 1, wrapping_add_u64(square >> 2, square >> 3)),
    );
    wrapping_sub_u64(wrapping_add_u64(s, more), 64) >> 9
}

// A number near the root of m * 2^54. Nothing is promised of it: who asks tests it.
fn near_root(m: u64) -> u64 {
    let a = m << 10;
    let y = nearer_reciprocal(a, nearer_reciprocal(a, first_reciprocal(a)));
    root_by_reciprocal(a, y)
}

// The largest q with q * q <= m * 2^54: a guess g, or the next number, where the exact rest m * 2^54 - g * g says so.
pub fn digits(m: u64) -> u64
    requires { m < 2 ^ 54 }
    ensures { (result * result ≤ m * 2 ^ 54) × (m * 2 ^ 54 < (result + 1) * (result + 1)) }
{
    let g = near_root(m) % 36028797018963968;
    let rest = excess(m >> 10, m << 54, upper(g, g), lower(g, g));
    if rest <= 4 * g + 3 {
        if rest <= 2 * g { g } else { g + 1 }
    } else {
        digit_by_digit(m)
    }
}
