// The start of a phase: the rows most at risk are blocked.
#![tactic(auto)]

ghost use Rattle.std.specs.Prelude.{◌≡◌, ℕ, ◌≤◌, ◌<◌, ◌*◌, ◌+◌, length, get_or};
ghost use Rattle.seq.specs.Lists.{repeated};
ghost use Rattle.chosen.specs.Entries.{entry_of};
ghost use Rattle.chosen.specs.ChosenColumns.{Chosen};
ghost use Rattle.begin.specs.Beginning.{BlockedFirst, Begun};

use blocking::block_row;
use entries::norms_into;
use leading::first_rows;
use seq::fill;

// Blocks some rows, in order; how many vectors the basis then has. v is room for a row.
fn block_first(
    numbers: &mut [f64],
    blocked: &mut [u32],
    first: &[u32],
    matrix: &[f64],
    bits: &[u8],
    n: usize,
    cols: &[u32],
    scale: &[f64],
    v: &mut [f64],
) -> usize
    requires chosen { Chosen matrix.now bits.now n cols.now scale.now (length blocked.old) × (length v.old ≡ length cols.now)
        × (length
        blocked.old + length blocked.old + length blocked.old + length cols.now * length cols.now ≤ length
        numbers.old) × (blocked.old ≡ repeated 0 (length blocked.old)) }
    requires by_index { (k : ℕ) → k < length first.now → get_or first.now k 0 < length blocked.old }
    ensures { BlockedFirst (entry_of matrix.now bits.now n cols.now scale.now)
        (length cols.now) first.now numbers.old (length blocked.old) result
        numbers.new blocked.new }
{
    let base = blocked.len() + blocked.len() + blocked.len();
    let mut count = 0usize;
    for &row in first {
        let i = row as usize;
        blocked[i] = 1;
        count = block_row(
            &mut numbers[base..],
            count,
            i,
            matrix,
            bits,
            n,
            cols,
            scale,
            &mut v[..],
        );
    }
    count
}

// Blocks the rows most at risk, a quarter as many as there are columns; how many vectors the basis then has.
pub fn begin(
    numbers: &mut [f64],
    blocked: &mut [u32],
    matrix: &[f64],
    bits: &[u8],
    n: usize,
    cols: &[u32],
    scale: &[f64],
    v: &mut [f64],
) -> usize
    requires { Chosen matrix.now bits.now n cols.now scale.now (length blocked.old) × (length v.old ≡ length cols.now)
        × (length
        blocked.old + length blocked.old + length blocked.old + length cols.now * length cols.now ≤ length
        numbers.old) }
    ensures { Begun (entry_of matrix.now bits.now n cols.now scale.now)
        (length cols.now) numbers.old (length blocked.old) result numbers.new
        blocked.new }
{
    let rows = blocked.len();
    let from = rows + rows;
    let to = from + rows;
    let quarter = cols.len() / 4;
    let mut first = [0u32; 64];
    norms_into(&mut numbers[from..to], matrix, bits, n, cols, scale);
    let all = &numbers[..];
    let k = first_rows(&mut first[..quarter], &all[0..rows], &all[from..to]);
    fill(&mut blocked[..], 0);
    block_first(
        numbers,
        blocked,
        &first[..k],
        matrix,
        bits,
        n,
        cols,
        scale,
        v,
    )
}
