// The tests of a colouring, a change and turned words on bits, and what they answer.
#![tactic(auto)]

ghost use Rattle.std.specs.Prelude.{◌≡◌, ◌≤◌, ◌*◌, length};
ghost use Rattle.limits.specs.Votes.{bytes_of, spare_fault};
ghost use Rattle.refusal.specs.Refusals.{number_in};
ghost use Rattle.pollfaults.specs.Polls.{bits_coloring_fault, poll_fault, bits_turned_fault};

use limits::{all_finite, scratch_short, too_large};
use refusal::Refusal;
use spare::spare_clear;

// 15 where a spare bit is set.
pub fn spare_fault(bits: &[u8], m: usize, n: usize) -> Result<(), Refusal>
    requires { (m ≤ 256) × (n ≤ 4096) × (length bits.now ≡ m * bytes_of n) }
    ensures { number_in result ≡ spare_fault bits.now m n }
{
    if !spare_clear(bits, m, n) {
        return Err(Refusal::SpareBit);
    }
    Ok(())
}

// What a colouring is refused for.
#[tactic(auto, unfolding(crate::specs::Polls::bits_coloring_fault))]
pub fn bits_coloring_fault(
    bits: &[u8],
    m: usize,
    n: usize,
    output: usize,
    numbers: usize,
    indices: usize,
) -> Result<(), Refusal>
    ensures { number_in result ≡ bits_coloring_fault bits.now m n output numbers indices }
{
    if too_large(m, n) {
        return Err(Refusal::Size);
    }
    if bits.len() != m * ((n + 7) / 8) || output != m {
        return Err(Refusal::Length);
    }
    if scratch_short(m, n, numbers, indices) {
        return Err(Refusal::Scratch);
    }
    spare_fault(bits, m, n)
}

// 3 or 4, of the sizes.
#[tactic(auto, unfolding(crate::specs::Polls::poll_fault))]
pub fn poll_fault(
    bits: &[u8],
    m: usize,
    n: usize,
    before: &[f64],
    after: &[f64],
) -> Result<(), Refusal>
    ensures { number_in result ≡ poll_fault bits.now m n before.now after.now }
{
    if too_large(m, n) {
        return Err(Refusal::Size);
    }
    if bits.len() != m * ((n + 7) / 8) || before.len() != m || after.len() != m {
        return Err(Refusal::Length);
    }
    Ok(())
}

// What a count of turned words is refused for.
pub fn bits_turned_fault(
    bits: &[u8],
    m: usize,
    n: usize,
    before: &[f64],
    after: &[f64],
    thresholds: &[f64],
) -> Result<(), Refusal>
    ensures { number_in result ≡ bits_turned_fault bits.now m n before.now after.now thresholds.now }
{
    poll_fault(bits, m, n, before, after)?;
    if thresholds.len() != n {
        return Err(Refusal::Length);
    }
    spare_fault(bits, m, n)?;
    if !all_finite(thresholds) {
        return Err(Refusal::Weight);
    }
    Ok(())
}
