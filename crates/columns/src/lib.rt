// What a column does to a vector over the rows. A column is scaled by s, and |s| stands under it where the vector has one more row.
#![tactic(auto)]

ghost use Rattle.std.specs.Prelude.{◌≡◌, ◌≤◌, ◌+◌, length};
ghost use Rattle.seq.specs.Lists.{tabulate};
ghost use Rattle.columns.specs.Columns.{scaled_at};
ghost use Rattle.columns.specs.Kernels.{plus_column, plus_columns, plus_squares, less_column, TwoUnder};

use ieee::abs;

// acc + g times the column.
pub fn add_column(acc: &mut [f64], column: &[f64], s: f64, g: f64)
    requires { (length column.now ≤ length acc.old) × (length acc.old ≤ length column.now + 1) }
    ensures { acc.new ≡ tabulate (plus_column (scaled_at column.now s) g acc.old)
        (length acc.old) }
{
    for (i, x) in column.iter().enumerate() {
        acc[i] = acc[i] + (*x * s) * g;
    }
    let under = column.len();
    if under < acc.len() {
        acc[under] = acc[under] + abs(s) * g;
    }
}

// acc + the column's squares.
pub fn add_squares(acc: &mut [f64], column: &[f64], s: f64)
    requires { (length column.now ≤ length acc.old) × (length acc.old ≤ length column.now + 1) }
    ensures { acc.new ≡ tabulate (plus_squares (scaled_at column.now s) acc.old)
        (length acc.old) }
{
    for (i, x) in column.iter().enumerate() {
        let e = *x * s;
        acc[i] = acc[i] + e * e;
    }
    let under = column.len();
    if under < acc.len() {
        let e = abs(s);
        acc[under] = acc[under] + e * e;
    }
}

// ax - t times the column, which is ax + -t times it, to the bit.
pub fn less_column(ax: &mut [f64], column: &[f64], s: f64, t: f64)
    requires { (length column.now ≤ length ax.old) × (length ax.old ≤ length column.now + 1) }
    ensures { ax.new ≡ tabulate (less_column (scaled_at column.now s) t ax.old)
        (length ax.old) }
{
    add_column(ax, column, s, -t);
}

// acc + two columns, each times its g, in order.
pub fn add_two(acc: &mut [f64], first: &[f64], s: f64, g: f64, second: &[f64], t: f64, h: f64)
    requires { TwoUnder first.now second.now acc.old }
    ensures { acc.new ≡ tabulate
        (plus_columns (scaled_at first.now s) g (scaled_at second.now t) h acc.old)
        (length acc.old) }
{
    for (i, x) in first.iter().enumerate() {
        acc[i] = (acc[i] + (*x * s) * g) + (second[i] * t) * h;
    }
    let under = first.len();
    if under < acc.len() {
        acc[under] = (acc[under] + abs(s) * g) + abs(t) * h;
    }
}
