// A row is blocked: it is offered to the basis.
#![tactic(auto)]

ghost use Rattle.std.specs.Prelude.{◌≡◌, ◌≤◌, ◌*◌, ◌+◌, length};
ghost use Rattle.seq.specs.Sums.{plus_zero};
ghost use Rattle.basis.specs.Held.{Inserted};
ghost use Rattle.chosen.specs.Rows.{row_of};
ghost use Rattle.chosen.specs.Entries.{entry_of};
ghost use Rattle.chosen.specs.ChosenColumns.{Chosen};
ghost use Rattle.blocking.specs.Held.{Blocked};

use basis::insert;
use entries::row_into;
use worst::worst;

// Offers row i to the basis; the new count. v is room for the row.
pub fn block_row(
    basis: &mut [f64],
    count: usize,
    i: usize,
    matrix: &[f64],
    bits: &[u8],
    n: usize,
    cols: &[u32],
    scale: &[f64],
    v: &mut [f64],
) -> usize
    requires { Chosen matrix.now bits.now n cols.now scale.now n × (length v.old ≡ length cols.now) ×
        (length cols.now * length cols.now ≤ length basis.old)
        × (count ≤ length cols.now) }
    ensures { Inserted plus_zero count (length cols.now) basis.old
        (row_of (entry_of matrix.now bits.now n cols.now scale.now)
        (length cols.now) i) result
        basis.new }
{
    row_into(&mut v[..], matrix, bits, n, cols, scale, i);
    insert(basis, count, cols.len(), v)
}

// Blocks the worst row that is not blocked, where there is one and the basis is short of a vector for each column; the new count.
pub fn block_worst(
    numbers: &mut [f64],
    count: usize,
    blocked: &mut [u32],
    matrix: &[f64],
    bits: &[u8],
    n: usize,
    cols: &[u32],
    scale: &[f64],
    v: &mut [f64],
) -> usize
    requires { Chosen matrix.now bits.now n cols.now scale.now (length blocked.old) × (length v.old ≡ length cols.now)
        × (length
        blocked.old + length blocked.old + length blocked.old + length cols.now * length cols.now ≤ length
        numbers.old) × (count ≤ length cols.now) }
    ensures { Blocked (entry_of matrix.now bits.now n cols.now scale.now)
        (length cols.now) numbers.old blocked.old count result numbers.new
        blocked.new }
{
    if count >= cols.len() {
        return count;
    }
    let rows = blocked.len();
    let i = worst(&numbers[..rows], &blocked[..]);
    if i >= rows {
        return count;
    }
    blocked[i] = 1;
    let base = rows + rows + rows;
    block_row(
        &mut numbers[base..],
        count,
        i,
        matrix,
        bits,
        n,
        cols,
        scale,
        v,
    )
}
