// Which word moved: the list of every row's change, by magnitude falling, built anew or brought up to date.
#![tactic(auto)]

ghost use Rattle.std.specs.Prelude.{◌≡◌, ◌≤◌, ◌<◌, length};
ghost use Rattle.marking.specs.Moved.{Working, Moved};
ghost use Rattle.refusal.specs.Refusals.{number_in};
ghost use Rattle.movefaults.specs.Changes.{Taken};
ghost use Rattle.movefaults.specs.Answers.{lent_changes, Listed};

use change::changes_into;
use movefaults::moved_fault;
use refusal::{Refusal, number_in};
use sorting::list_moved;

// The list of the changes. The keys are the changes in row order.
pub fn list_changes(
    matrix: &[f64],
    n: usize,
    before: &[f64],
    after: &[f64],
    rows: &mut [u32],
    changes: &mut [f64],
    keys: &mut [f64],
    room: &mut [u32],
    counts: &mut [u32],
    again: bool,
)
    requires { Taken matrix.now (length before.now) n before.now after.now × (length rows.old ≡ n) × (length changes.old ≡ n)
        × (length keys.old ≡ n) × Working n (length room.old) (length counts.old) }
    ensures { Moved
        (lent_changes matrix.now (length before.now) n before.now after.now)
        rows.new changes.new }
{
    let none = [0u8; 0];
    changes_into(&mut keys[..], 0, matrix, &none[..], n, before, after);
    list_moved(rows, changes, &keys[..], room, counts, again);
}

// The same, with arrays of its own to work in: for at most N rows, and with the C counters that 256 rows and more ask for.
fn list_within<const N: usize, const C: usize>(
    matrix: &[f64],
    n: usize,
    before: &[f64],
    after: &[f64],
    rows: &mut [u32],
    changes: &mut [f64],
    again: bool,
)
    requires { Taken matrix.now (length before.now) n before.now after.now
        × (length rows.old ≡ n) × (length changes.old ≡ n) × (n ≤ N) × (N ≤ 4096) × (C ≤ 2048) × Working n n C }
    ensures { Moved
        (lent_changes matrix.now (length before.now) n before.now after.now)
        rows.new changes.new }
{
    let mut keys = [0.0f64; N];
    let mut room = [0u32; N];
    let mut counts = [0u32; C];
    list_changes(
        matrix,
        n,
        before,
        after,
        rows,
        changes,
        &mut keys[..n],
        &mut room[..n],
        &mut counts,
        again,
    );
}

// The same of any number of rows: arrays are cleared at each call, and so are no longer than the rows ask for, up to 56 KiB.
fn list_in_room(
    matrix: &[f64],
    n: usize,
    before: &[f64],
    after: &[f64],
    rows: &mut [u32],
    changes: &mut [f64],
    again: bool,
)
    requires { Taken matrix.now (length before.now) n before.now after.now
        × (length rows.old ≡ n) × (length changes.old ≡ n) }
    ensures { Moved
        (lent_changes matrix.now (length before.now) n before.now after.now)
        rows.new changes.new }
{
    if n <= 16 {
        list_within::<16, 0>(matrix, n, before, after, rows, changes, again);
    } else if n <= 64 {
        list_within::<64, 0>(matrix, n, before, after, rows, changes, again);
    } else if n < 256 {
        list_within::<256, 0>(matrix, n, before, after, rows, changes, again);
    } else {
        list_within::<4096, 2048>(matrix, n, before, after, rows, changes, again);
    }
}

// Lists, or refuses.
fn list_or_refuse(
    matrix: &[f64],
    m: usize,
    n: usize,
    before: &[f64],
    after: &[f64],
    rows: &mut [u32],
    changes: &mut [f64],
    again: bool,
) -> Result<(), Refusal>
    ensures { Listed matrix.now m n before.now after.now rows.old
        changes.old (number_in result) rows.new changes.new }
{
    moved_fault(matrix, m, n, before, after, rows.len(), changes.len())?;
    list_in_room(matrix, n, before, after, rows, changes, again);
    Ok(())
}

// The change of every row when the weights `before` are replaced by `after`, by magnitude falling, ties to the smaller row: the rows, and
// their changes beside them.
pub fn moved(
    matrix: &[f64],
    m: usize,
    n: usize,
    before: &[f64],
    after: &[f64],
    rows: &mut [u32],
    changes: &mut [f64],
) -> u64
    ensures { Listed matrix.now m n before.now after.now rows.old
        changes.old result rows.new changes.new }
{
    number_in(list_or_refuse(matrix, m, n, before, after, rows, changes, false))
}

// The same list, brought up to date: faster where rows still are nearly in order, and the same whatever the lists held.
pub fn moved_again(
    matrix: &[f64],
    m: usize,
    n: usize,
    before: &[f64],
    after: &[f64],
    rows: &mut [u32],
    changes: &mut [f64],
) -> u64
    ensures { Listed matrix.now m n before.now after.now rows.old
        changes.old result rows.new changes.new }
{
    number_in(list_or_refuse(matrix, m, n, before, after, rows, changes, true))
}
