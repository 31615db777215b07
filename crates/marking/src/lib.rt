// Whether an index has each row once, and the changes set in its order.
#![tactic(auto)]

ghost use Rattle.std.specs.Prelude.{◌≡◌, length};
ghost use Rattle.arranged.specs.Arranged.{Within, Tells, EachOnce};
ghost use Rattle.marking.specs.Moved.{changes_at};

use seq::fill;

// Whether rows, n of them, have each of 0, .., n - 1 once. marks are as many.
pub fn is_each_once(rows: &[u32], marks: &mut [u32]) -> bool
    requires { length marks.old ≡ length rows.now }
    ensures { Tells result (EachOnce (length rows.now) rows.now) }
{
    fill(marks, 0);
    for row in rows {
        let x = *row as usize;
        if x >= marks.len() || marks[x] != 0 {
            return false;
        }
        marks[x] = 1;
    }
    true
}

// The change of each row of the index.
pub fn place(changes: &mut [f64], keys: &[f64], rows: &[u32])
    requires { (length changes.old ≡ length rows.now) × Within rows.now (length keys.now) }
    ensures { changes.new ≡ changes_at keys.now rows.now }
{
    for (k, change) in changes.iter_mut().enumerate() {
        *change = keys[rows[k] as usize];
    }
}
