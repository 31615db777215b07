// The tests of a call that has several jobs on one matrix.
#![tactic(auto)]

ghost use Rattle.std.specs.Prelude.{◌≡◌, ◌||◌, ◌≤◌, ltb};
ghost use Rattle.limits.specs.Limits.{too_large};
ghost use Rattle.refusal.specs.Refusals.{number_in};
ghost use Rattle.faults.specs.Faults.{lists_off, whole_fault, bits_whole_fault};

use faults::room_fault;
use limits::{all_bounded, too_large};
use refusal::Refusal;
use spare::spare_clear;

// Whether a call for several items has more than 64, or is too large.
fn call_large(items: usize, m: usize, n: usize) -> bool
    ensures { result ≡ (ltb 64 items || too_large m n) }
{
    items > 64 || too_large(m, n)
}

// Whether a list of such a call has another length than it is to have, the matrix so many entries.
fn lists_off(
    items: usize,
    m: usize,
    entries: usize,
    matrix: usize,
    weights: usize,
    seeds: usize,
    editions: usize,
    rules: usize,
    allowances: usize,
    limits: usize,
    output: usize,
) -> bool
    requires { (items ≤ 64) × (m ≤ 256) }
    ensures { result ≡ lists_off items m entries matrix weights seeds editions rules allowances limits output }
{
    let places = items * m;
    matrix != entries
        || weights != places
        || seeds != items
        || editions != items
        || rules != items
        || allowances != items
        || limits != items
        || output != places
}

// 3 to 7, of such a call as a whole.
#[tactic(auto, unfolding(faults::specs::Faults::whole_fault))]
pub fn whole_fault(
    items: usize,
    matrix: &[f64],
    m: usize,
    n: usize,
    weights: usize,
    seeds: usize,
    editions: usize,
    rules: usize,
    allowances: usize,
    limits: usize,
    output: usize,
    numbers: usize,
    indices: usize,
) -> Result<(), Refusal>
    ensures { number_in result
        ≡ whole_fault items matrix.now m n weights seeds editions rules allowances limits output numbers indices }
{
    if call_large(items, m, n) {
        return Err(Refusal::Size);
    }
    if lists_off(
        items,
        m,
        m * n,
        matrix.len(),
        weights,
        seeds,
        editions,
        rules,
        allowances,
        limits,
        output,
    ) {
        return Err(Refusal::Length);
    }
    room_fault(m, n, numbers, indices)?;
    if !all_bounded(matrix, 1.0) {
        return Err(Refusal::Entry);
    }
    Ok(())
}

// 3 to 6 and 15, of such a call on bits.
#[tactic(auto, unfolding(faults::specs::Faults::bits_whole_fault))]
pub fn bits_whole_fault(
    items: usize,
    bits: &[u8],
    m: usize,
    n: usize,
    weights: usize,
    seeds: usize,
    editions: usize,
    rules: usize,
    allowances: usize,
    limits: usize,
    output: usize,
    numbers: usize,
    indices: usize,
) -> Result<(), Refusal>
    ensures { number_in result
        ≡ bits_whole_fault items bits.now m n weights seeds editions rules allowances limits output numbers indices }
{
    if call_large(items, m, n) {
        return Err(Refusal::Size);
    }
    if lists_off(
        items,
        m,
        m * ((n + 7) / 8),
        bits.len(),
        weights,
        seeds,
        editions,
        rules,
        allowances,
        limits,
        output,
    ) {
        return Err(Refusal::Length);
    }
    room_fault(m, n, numbers, indices)?;
    if !spare_clear(bits, m, n) {
        return Err(Refusal::SpareBit);
    }
    Ok(())
}
