// The lines of a sheet's columns, written each where the one before it ends.
#![tactic(auto)]

ghost use Rattle.std.specs.Prelude.{◌∷◌, ◌+◌, ◌*◌, ◌≤◌, length, get_or};
ghost use Rattle.fields.specs.Bytes.{tab};
ghost use Rattle.fields.specs.Texts.{bits_text};
ghost use Rattle.fields.specs.Steps.{WroteOn};
ghost use Rattle.form.specs.Sheets.{entries_text, column_text, columns_text};
ghost use Rattle.form.specs.Columns.{ColumnsLent};

use putting::{put_bits, put_word};

// Writes an entry: a tab, and bits.
fn put_entry(out: &mut [u8], at: usize, x: u64) -> usize
    requires { at + 17 ≤ length out.old }
    ensures { WroteOn (tab ∷ bits_text x) at out.old result out.new }
{
    let a = put_word(&mut out[..], at, b"\t");
    put_bits(out, a, x)
}

// Writes entries, one after the other.
fn put_entries(out: &mut [u8], at: usize, entries: &[u64]) -> usize
    requires { at + 17 * length entries.now ≤ length out.old }
    ensures { WroteOn (entries_text (λ i. get_or entries.now i 0) (length entries.now)) at out.old result
        out.new }
{
    let mut end = at;
    for entry in entries {
        end = put_entry(&mut out[..], end, *entry);
    }
    end
}

// Writes the line of a column.
fn put_column(out: &mut [u8], at: usize, weight: u64, entries: &[u64]) -> usize
    requires { at + 21 + 17 * length entries.now ≤ length out.old }
    ensures { WroteOn (column_text (length entries.now) weight (λ i. get_or entries.now i 0)) at
        out.old result out.new }
{
    let a = put_word(&mut out[..], at, b"col\t");
    let b = put_bits(&mut out[..], a, weight);
    let c = put_entries(&mut out[..], b, entries);
    put_word(out, c, b"\n")
}

// Writes the lines of the columns.
pub fn put_columns(out: &mut [u8], at: usize, matrix: &[u64], n: usize, weights: &[u64]) -> usize
    requires { ColumnsLent at matrix.now n weights.now out.old }
    ensures { WroteOn (columns_text n (λ j. get_or weights.now j 0) (λ j i. get_or matrix.now (j * n + i) 0)
        (length weights.now)) at out.old result out.new }
{
    let mut end = at;
    for (j, weight) in weights.iter().enumerate() {
        let start = j * n;
        end = put_column(&mut out[..], end, *weight, &matrix[start..start + n]);
    }
    end
}
