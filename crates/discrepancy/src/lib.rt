// The public colouring of a lent matrix.
#![tactic(auto)]

ghost use Rattle.seq.specs.Sums.{plus_zero};
ghost use Rattle.colored.specs.Coloring.{coloring_of};
ghost use Rattle.colored.specs.Fresh.{ColoredAs};
ghost use Rattle.draw.specs.SplitMix.{seeded};
ghost use Rattle.limits.specs.Reading.{read_of};
ghost use Rattle.colorfaults.specs.Discrepancy.{DiscrepancyColored};
ghost use Rattle.colorfaults.specs.Lent.{ColoringLent};

use colored::Counted;
use colorfaults::{Colored, coloring_fault, write_colours};
use coloring::coloring;
use draw::SplitMix64;
use seq::{count_up, fill};

// Colours all m columns into x. The matrix is read as it is: every scale is 1.0.
pub fn color_all(
    matrix: &[f64],
    bits: &[u8],
    m: usize,
    n: usize,
    seed: u64,
    x: &mut [f64],
    numbers: &mut [f64],
    indices: &mut [u32],
) -> Counted
    requires { ColoringLent matrix.now bits.now m n x.old numbers.old indices.old }
    ensures { ColoredAs x.new result (coloring_of plus_zero (read_of matrix.now bits.now n) m n
        (seeded seed 1)) }
{
    let mut cols = [0u32; 256];
    let mut scale = [0.0f64; 256];
    count_up(&mut cols[..m]);
    fill(&mut scale[..m], 1.0);
    coloring(
        matrix,
        bits,
        n,
        &cols[..m],
        &scale[..m],
        x,
        numbers,
        &mut indices[..n],
        SplitMix64::new(seed, 1),
    )
}

// Colours the m columns of n rows, 1 or -1 each, so that every row's sum is small. A refusal changes nothing, and has zeros
// beside its number.
pub fn discrepancy_coloring(
    matrix: &[f64],
    m: usize,
    n: usize,
    seed: u64,
    output: &mut [i8],
    numbers: &mut [f64],
    indices: &mut [u32],
) -> Colored
    ensures { DiscrepancyColored matrix.now m n seed output.old numbers.old
        indices.old result output.new numbers.new indices.new }
{
    if let Err(refusal) = coloring_fault(matrix, m, n, output.len(), numbers.len(), indices.len()) {
        return Colored {
            number: refusal.number(),
            directions: 0,
            sweeps: 0,
        };
    }
    let none = [0u8; 0];
    let mut x = [0.0f64; 256];
    let c = color_all(
        matrix,
        &none[..],
        m,
        n,
        seed,
        &mut x[..m],
        &mut numbers[..],
        &mut indices[..],
    );
    write_colours(output, &x[..m]);
    fill(numbers, 0.0);
    fill(indices, 0);
    Colored {
        number: 0,
        directions: c.directions as u64,
        sweeps: c.sweeps as u64,
    }
}
