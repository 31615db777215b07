// Sizes, what is refused for them, and the bits of a matrix of votes.
#![tactic(auto)]

ghost use Rattle.std.specs.Prelude.{◌≡◌, ◌≤◌, ◌<◌, ◌+◌, ◌*◌};
ghost use Rattle.limits.specs.Limits.{too_large, scratch_short, bounded, all_finite};

use ieee::{abs, is_finite};

// Whether there are more than 256 columns or 4096 rows.
pub fn too_large(m: usize, n: usize) -> bool
    ensures { result ≡ too_large m n }
{
    m > 256 || n > 4096
}

// Whether a scratch of so many numbers or so many indices is too short for m columns and n rows.
pub fn scratch_short(m: usize, n: usize, numbers: usize, indices: usize) -> bool
    requires { (m ≤ 256) × (n ≤ 4096) }
    ensures { result ≡ scratch_short m n numbers indices }
{
    numbers < m * (n + 1) + m * m + 16 * m + 8 * (n + 1) || indices < 8 * (m + n + 1)
}

// Whether every entry is at most so large in magnitude; a NaN is not. No entry ends the loop, so that many are compared at a time.
pub fn all_bounded(matrix: &[f64], most: f64) -> bool
    ensures { result ≡ bounded most matrix.now }
{
    let mut ok = true;
    for x in matrix {
        ok &= abs(*x) <= most;
    }
    ok
}

// Whether every number of a list is finite.
pub fn all_finite(v: &[f64]) -> bool
    ensures { result ≡ all_finite v.now }
{
    let mut ok = true;
    for x in v {
        ok &= is_finite(*x);
    }
    ok
}

// A byte as a number of a word.
pub fn wide(byte: u8) -> usize
    ensures { result ≡ byte }
{
    byte as usize
}
