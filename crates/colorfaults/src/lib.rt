// The tests of a direct colouring, what it answers, and its colours written.
#![tactic(auto)]

ghost use Rattle.std.specs.Prelude.{◌≡◌, ◌*◌, ◌+◌, length};
ghost use Rattle.seq.specs.Lists.{tabulate};
ghost use Rattle.refusal.specs.Refusals.{number_in};
ghost use Rattle.colorfaults.specs.Discrepancy.{coloring_fault, colour_at};

use limits::{all_bounded, scratch_short, too_large};
use refusal::Refusal;

// The answer of a colouring: 0 or the number of a refusal, how many directions were drawn, and how many sweeps made.
#[repr(C)]
#[derive(Clone, Copy)]
pub struct Colored {
    pub number: u64,
    pub directions: u64,
    pub sweeps: u64,
}

// The first reason that applies, by the order of the numbers.
#[tactic(auto, unfolding(crate::specs::Discrepancy::coloring_fault))]
pub fn coloring_fault(
    matrix: &[f64],
    m: usize,
    n: usize,
    output: usize,
    numbers: usize,
    indices: usize,
) -> Result<(), Refusal>
    ensures { number_in result ≡ coloring_fault matrix.now m n output numbers indices }
{
    if too_large(m, n) {
        return Err(Refusal::Size);
    }
    if matrix.len() != m * n || output != m {
        return Err(Refusal::Length);
    }
    if scratch_short(m, n, numbers, indices) {
        return Err(Refusal::Scratch);
    }
    if !all_bounded(matrix, 4294967296.0) {
        return Err(Refusal::ColoringEntry);
    }
    Ok(())
}

// 1 for a colour above 0, and -1 for one below.
pub fn write_colours(output: &mut [i8], x: &[f64])
    requires { length output.old ≡ length x.now }
    ensures { output.new ≡ tabulate (colour_at x.now) (length x.now) }
{
    for (j, colour) in output.iter_mut().enumerate() {
        *colour = if x[j] > 0.0 { 1 } else { -1 };
    }
}
