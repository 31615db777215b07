// The tests of a job on bits, and what it answers.
#![tactic(auto)]

ghost use Rattle.std.specs.Prelude.{◌≡◌};
ghost use Rattle.refusal.specs.Refusals.{number_in};
ghost use Rattle.bitfaults.specs.Refusals.{bytes_fault, votes_fault};

use faults::{edition_fault, room_fault, weight_fault};
use limits::too_large;
use refusal::Refusal;
use rules::{Rule, rule_fault};
use spare::spare_clear;

// 3 to 6, of the sizes.
#[tactic(auto, unfolding(crate::specs::Refusals::bytes_fault))]
fn bytes_fault(
    m: usize,
    n: usize,
    bytes: usize,
    weights: usize,
    output: usize,
    numbers: usize,
    indices: usize,
) -> Result<(), Refusal>
    ensures { number_in result ≡ bytes_fault m n bytes weights output numbers indices }
{
    if too_large(m, n) {
        return Err(Refusal::Size);
    }
    if bytes != m * ((n + 7) / 8) || weights != m || output != m {
        return Err(Refusal::Length);
    }
    room_fault(m, n, numbers, indices)
}

// The first reason that applies.
#[tactic(auto, unfolding(crate::specs::Refusals::votes_fault))]
pub fn votes_fault(
    rule: Rule,
    edition: u32,
    bits: &[u8],
    m: usize,
    n: usize,
    weights: &[f64],
    output: usize,
    numbers: usize,
    indices: usize,
) -> Result<(), Refusal>
    ensures { number_in result ≡ votes_fault rule edition bits.now m n weights.now output numbers indices }
{
    rule_fault(rule)?;
    edition_fault(edition)?;
    bytes_fault(m, n, bits.len(), weights.len(), output, numbers, indices)?;
    if !spare_clear(bits, m, n) {
        return Err(Refusal::SpareBit);
    }
    weight_fault(weights)
}
