// What a job is refused for before any work is done, and what a call for several jobs on one matrix is, its items. And the rule that a host
// names by a number, since a number that names none is refused.
#![tactic(auto)]

ghost use Rattle.std.specs.Prelude.{◌≡◌, ◌≤◌};
ghost use Rattle.faults.specs.Faults.{rule_named, edition_fault, room_fault, size_fault, weight_fault, value_fault, job_fault};
ghost use Rattle.faults.specs.Faults.{item_fault};
ghost use Rattle.refusal.specs.Refusals.{number_in};

use ieee::is_finite;
use limits::{all_bounded, all_finite, scratch_short, too_large};
use refusal::Refusal;
use rules::{Rule, rule_fault};
use weights::l1;

// The rule that a host names by a number: 0 for a target, 1 for an allowance, 2 for an allowance with a cap. Another number names neither
// target nor cap, and is refused as a target of 0 is.
pub fn named_rule(number: u32, allowance: f64, limit: usize) -> Rule
    ensures { result ≡ rule_named number allowance limit }
{
    match number {
        0 => Rule::Target(limit),
        1 => Rule::Within {
            allowance,
            cap: None,
        },
        2 => Rule::Within {
            allowance,
            cap: Some(limit),
        },
        _ => Rule::Target(0),
    }
}

// 13 where the edition is neither 1 nor 2.
pub fn edition_fault(edition: u32) -> Result<(), Refusal>
    ensures { number_in result ≡ edition_fault edition }
{
    match edition {
        1 | 2 => Ok(()),
        _ => Err(Refusal::Edition),
    }
}

// 5 and 6, of what is there at all and of the scratch.
pub fn room_fault(m: usize, n: usize, numbers: usize, indices: usize) -> Result<(), Refusal>
    requires { (m ≤ 256) × (n ≤ 4096) }
    ensures { number_in result ≡ room_fault m n numbers indices }
{
    if m == 0 || n == 0 {
        return Err(Refusal::Empty);
    }
    if scratch_short(m, n, numbers, indices) {
        return Err(Refusal::Scratch);
    }
    Ok(())
}

// 3 to 6, of the sizes.
#[tactic(auto, unfolding(crate::specs::Faults::size_fault))]
pub fn size_fault(
    m: usize,
    n: usize,
    matrix: usize,
    weights: usize,
    output: usize,
    numbers: usize,
    indices: usize,
) -> Result<(), Refusal>
    ensures { number_in result ≡ size_fault m n matrix weights output numbers indices }
{
    if too_large(m, n) {
        return Err(Refusal::Size);
    }
    if matrix != m * n || weights != m || output != m {
        return Err(Refusal::Length);
    }
    room_fault(m, n, numbers, indices)
}

// 8 and 9, of the weights.
pub fn weight_fault(weights: &[f64]) -> Result<(), Refusal>
    ensures { number_in result ≡ weight_fault weights.now }
{
    if !all_finite(weights) {
        return Err(Refusal::Weight);
    }
    let sum = l1(weights);
    if sum > 0.0 && is_finite(sum) {
        Ok(())
    } else {
        Err(Refusal::Sum)
    }
}

// 7 to 9, of the values.
#[tactic(auto, unfolding(crate::specs::Faults::value_fault))]
fn value_fault(matrix: &[f64], weights: &[f64]) -> Result<(), Refusal>
    ensures { number_in result ≡ value_fault matrix.now weights.now }
{
    if !all_bounded(matrix, 1.0) {
        return Err(Refusal::Entry);
    }
    weight_fault(weights)
}

// The first reason that applies.
#[tactic(auto, unfolding(crate::specs::Faults::job_fault))]
pub fn job_fault(
    rule: Rule,
    edition: u32,
    matrix: &[f64],
    m: usize,
    n: usize,
    weights: &[f64],
    output: usize,
    numbers: usize,
    indices: usize,
) -> Result<(), Refusal>
    ensures { number_in result ≡ job_fault rule edition matrix.now m n weights.now output numbers indices }
{
    rule_fault(rule)?;
    edition_fault(edition)?;
    size_fault(m, n, matrix.len(), weights.len(), output, numbers, indices)?;
    value_fault(matrix, weights)
}

// What an item of a call that is not refused as a whole is refused for.
pub fn item_fault(rule: Rule, edition: u32, weights: &[f64]) -> Result<(), Refusal>
    ensures { number_in result ≡ item_fault rule edition weights.now }
{
    rule_fault(rule)?;
    edition_fault(edition)?;
    weight_fault(weights)
}
