// The lines of the words that moved, written from the list.
#![tactic(auto)]

ghost use Rattle.std.specs.Prelude.{◌≡◌, ◌+◌, ◌*◌, ◌≤◌, length};
ghost use Rattle.fields.specs.Steps.{WroteOn};
ghost use Rattle.wordlines.specs.Lines.{word_line, word_lines};

use answering::put_last;
use putting::{put_tabbed, put_word};

// Writes the line of a word.
fn put_line(out: &mut [u8], at: usize, row: u32, change: f64) -> usize
    requires { at + 43 ≤ length out.old }
    ensures { WroteOn (word_line row change) at out.old result out.new }
{
    let a = put_word(&mut out[..], at, b"word\t");
    let b = put_tabbed(&mut out[..], a, row as u64);
    put_last(out, b, change)
}

// Writes the lines of the words.
pub fn put_lines(out: &mut [u8], at: usize, rows: &[u32], changes: &[f64]) -> usize
    requires { (at + 43 * length rows.now ≤ length out.old) × (length rows.now ≤ 64)
        × (length changes.now ≡ length rows.now) }
    ensures { WroteOn (word_lines rows.now changes.now (length rows.now)) at out.old result
        out.new }
{
    let mut end = at;
    for (row, change) in rows.iter().zip(changes) {
        end = put_line(&mut out[..], end, *row, *change);
    }
    end
}
