// How far margins move between two weight vectors, and which words turn. Rows are taken 64 at a time, column by column, so that no
// scratch is needed.
#![tactic(auto)]

ghost use Rattle.std.specs.Prelude.{◌≡◌};
ghost use Rattle.refusal.specs.Refusals.{number_in};
ghost use Rattle.margins.specs.Answers.{margin_fault, change_answer, threshold_fault, turned_fault, turned_answer};

use change::change_of;
use limits::{all_finite, too_large};
use refusal::Refusal;
use turned::turned_of;

// 3 or 4, of the sizes.
#[tactic(auto, unfolding(crate::specs::Answers::margin_fault))]
fn margin_fault(
    matrix: &[f64],
    m: usize,
    n: usize,
    before: &[f64],
    after: &[f64],
) -> Result<(), Refusal>
    ensures { number_in result ≡ margin_fault matrix.now m n before.now after.now }
{
    if too_large(m, n) {
        return Err(Refusal::Size);
    }
    if matrix.len() != m * n || before.len() != m || after.len() != m {
        return Err(Refusal::Length);
    }
    Ok(())
}

// The number, and the largest change of a margin; 0 on a refusal.
#[repr(C)]
#[derive(Clone, Copy)]
pub struct Change {
    pub number: u64,
    pub change: f64,
}

// The largest change of any margin when the weights `before` are replaced by `after`.
pub fn max_margin_change(
    matrix: &[f64],
    m: usize,
    n: usize,
    before: &[f64],
    after: &[f64],
) -> Change
    ensures { result ≡ change_answer matrix.now m n before.now after.now }
{
    if let Err(refusal) = margin_fault(matrix, m, n, before, after) {
        return Change {
            number: refusal.number(),
            change: 0.0,
        };
    }
    let none = [0u8; 0];
    Change {
        number: 0,
        change: change_of(matrix, &none[..], n, before, after),
    }
}

// The number, and how many words turn; 0 on a refusal.
#[repr(C)]
#[derive(Clone, Copy)]
pub struct Turned {
    pub number: u64,
    pub count: u64,
}

// 4 or 8, of the thresholds.
#[tactic(auto, unfolding(crate::specs::Answers::threshold_fault))]
fn threshold_fault(n: usize, thresholds: &[f64]) -> Result<(), Refusal>
    ensures { number_in result ≡ threshold_fault n thresholds.now }
{
    if thresholds.len() != n {
        return Err(Refusal::Length);
    }
    if !all_finite(thresholds) {
        return Err(Refusal::Weight);
    }
    Ok(())
}

// The first of both that applies.
fn turned_fault(
    matrix: &[f64],
    m: usize,
    n: usize,
    before: &[f64],
    after: &[f64],
    thresholds: &[f64],
) -> Result<(), Refusal>
    ensures { number_in result ≡ turned_fault matrix.now m n before.now after.now thresholds.now }
{
    margin_fault(matrix, m, n, before, after)?;
    threshold_fault(n, thresholds)
}

// The number of words whose margin is above the word's threshold before and not after, or after and not before.
pub fn turned_words(
    matrix: &[f64],
    m: usize,
    n: usize,
    before: &[f64],
    after: &[f64],
    thresholds: &[f64],
) -> Turned
    ensures { result ≡ turned_answer matrix.now m n before.now after.now thresholds.now }
{
    if let Err(refusal) = turned_fault(matrix, m, n, before, after, thresholds) {
        return Turned {
            number: refusal.number(),
            count: 0,
        };
    }
    let none = [0u8; 0];
    Turned {
        number: 0,
        count: turned_of(matrix, &none[..], n, before, after, thresholds) as u64,
    }
}
