// Whether a text is of the form of a sheet: its columns, and its first wrong line.
#![tactic(auto)]

ghost use Rattle.std.specs.Prelude.{◌≡◌, ◌+◌, ◌<◌, ◌≤◌, ◌*◌, MatchResult};
ghost use Rattle.seq.specs.Keep.{all_to};
ghost use Rattle.head.specs.FirstLine.{head_of};
ghost use Rattle.form.specs.Form.{is_entry, is_column, columns_from, wrong_line};

use fields::{byte_at, is_bits, spells};
use head::{Head, head_of};

// Whether n entries stand at a place: a tab and bits each.
fn are_entries(text: &[u8], n: usize, at: usize) -> bool
    requires { (n ≤ 64) × (at ≤ 64000) }
    ensures { result ≡ all_to (λ k. is_entry text.now (at + 17 * k)) n }
{
    (0..n).all(|k| {
        let place = at + 17 * k;
        byte_at(text, place) == b'\t' && is_bits(text, place + 1)
    })
}

// Whether a column's line with n entries stands at a place.
#[tactic(auto, unfolding(form::specs::Form::is_column))]
pub fn is_column(text: &[u8], n: usize, at: usize) -> bool
    requires { (n ≤ 64) × (at ≤ 60000) }
    ensures { result ≡ is_column text.now n at }
{
    spells(b"col\t", text, at)
        && is_bits(text, at + 4)
        && are_entries(text, n, at + 20)
        && byte_at(text, at + 20 + 17 * n) == b'\n'
}

// How many of m lines from a place are columns, before the first that is none.
fn columns_from(text: &[u8], n: usize, at: usize, m: usize) -> usize
    requires { (n ≤ 64) × (m ≤ 32) × (at ≤ 1000) }
    ensures { result ≡ columns_from text.now n at m }
{
    for j in 0..m {
        if !is_column(text, n, at + j * (21 + 17 * n)) {
            return j;
        }
    }
    m
}

// The first line of a sheet of the form, or the number of the first wrong line, from 1.
pub fn sheet_head(text: &[u8]) -> Result<Head, usize>
    ensures { MatchResult result (λ head. (head ≡ head_of text.now) × (wrong_line text.now ≡ 0))
        (λ line. (line ≡ wrong_line text.now) × (0 < line)) }
{
    let Some(head) = head_of(text) else {
        return Err(1);
    };
    let good = columns_from(text, head.n, head.next, head.m);
    if good < head.m {
        return Err(good + 2);
    }
    if text.len() != head.next + head.m * (21 + 17 * head.n) {
        return Err(head.m + 2);
    }
    Ok(head)
}
