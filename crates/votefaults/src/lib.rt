// The tests of a call on labels and confidences, and what it answers.
#![tactic(auto)]

ghost use Rattle.std.specs.Prelude.{◌≡◌};
ghost use Rattle.refusal.specs.Refusals.{number_in};
ghost use Rattle.votefaults.specs.Votes.{is_label, all_labels, list_fault, call_fault};

use faults::{edition_fault, size_fault};
use limits::too_large;
use refusal::Refusal;
use rules::{Rule, rule_fault};

// Whether a label is 1 or -1.
fn is_label(y: i8) -> bool
    ensures { result ≡ is_label y }
{
    y == 1 || y == -1
}

// Whether every label is. All are asked, with no branch that a label decides.
fn all_labels(labels: &[i8]) -> bool
    ensures { result ≡ all_labels labels.now }
{
    let mut ok = true;
    for y in labels {
        ok &= is_label(*y);
    }
    ok
}

// 3 to 6, of the sizes.
#[tactic(auto, unfolding(crate::specs::Votes::list_fault))]
fn list_fault(
    m: usize,
    n: usize,
    confidences: usize,
    labels: usize,
    weights: usize,
    columns: usize,
    kept: usize,
    numbers: usize,
    indices: usize,
) -> Result<(), Refusal>
    ensures { number_in result ≡ list_fault m n confidences labels weights columns kept numbers indices }
{
    if labels == n && kept == m {
        return size_fault(m, n, confidences, weights, columns, numbers, indices);
    }
    if too_large(m, n) {
        return Err(Refusal::Size);
    }
    Err(Refusal::Length)
}

// What is tested before the values: the rule, the edition, the sizes, and the labels.
#[tactic(auto, unfolding(crate::specs::Votes::call_fault))]
pub fn call_fault(
    rule: Rule,
    edition: u32,
    confidences: usize,
    labels: &[i8],
    m: usize,
    n: usize,
    weights: usize,
    columns: usize,
    kept: usize,
    numbers: usize,
    indices: usize,
) -> Result<(), Refusal>
    ensures { number_in result ≡ call_fault rule edition confidences labels.now m n weights columns kept numbers indices }
{
    rule_fault(rule)?;
    edition_fault(edition)?;
    list_fault(
        m,
        n,
        confidences,
        labels.len(),
        weights,
        columns,
        kept,
        numbers,
        indices,
    )?;
    if !all_labels(labels) {
        return Err(Refusal::Label);
    }
    Ok(())
}
