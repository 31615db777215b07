// The tests of a list of words that moved.
#![tactic(auto)]

ghost use Rattle.std.specs.Prelude.{◌≡◌};
ghost use Rattle.refusal.specs.Refusals.{number_in};
ghost use Rattle.movefaults.specs.Answers.{length_fault, range_fault, moved_fault};

use limits::{all_bounded, too_large};
use refusal::Refusal;

// 3 and 4, of the sizes.
#[tactic(auto, unfolding(crate::specs::Answers::length_fault))]
fn length_fault(
    m: usize,
    n: usize,
    matrix: usize,
    before: usize,
    after: usize,
    rows: usize,
    changes: usize,
) -> Result<(), Refusal>
    ensures { number_in result ≡ length_fault m n matrix before after rows changes }
{
    if too_large(m, n) {
        return Err(Refusal::Size);
    }
    if matrix != m * n || before != m || after != m || rows != n || changes != n {
        return Err(Refusal::Length);
    }
    Ok(())
}

// 7 and 8, of the values.
#[tactic(auto, unfolding(crate::specs::Answers::range_fault))]
fn range_fault(matrix: &[f64], before: &[f64], after: &[f64]) -> Result<(), Refusal>
    ensures { number_in result ≡ range_fault matrix.now before.now after.now }
{
    if !all_bounded(matrix, 1.0) {
        return Err(Refusal::Entry);
    }
    if !all_bounded(before, 1.0) || !all_bounded(after, 1.0) {
        return Err(Refusal::Weight);
    }
    Ok(())
}

// The first reason that applies.
#[tactic(auto, unfolding(crate::specs::Answers::moved_fault))]
pub fn moved_fault(
    matrix: &[f64],
    m: usize,
    n: usize,
    before: &[f64],
    after: &[f64],
    rows: usize,
    changes: usize,
) -> Result<(), Refusal>
    ensures { number_in result ≡ moved_fault matrix.now m n before.now after.now rows changes }
{
    length_fault(m, n, matrix.len(), before.len(), after.len(), rows, changes)?;
    range_fault(matrix, before, after)
}
