// The first line of a sheet, written piece by piece, each where the one before it ends.
#![tactic(auto)]

ghost use Rattle.std.specs.Prelude.{◌++◌, ◌+◌, ◌≤◌, length};
ghost use Rattle.fields.specs.Texts.{tabbed};
ghost use Rattle.fields.specs.Steps.{WroteOn};
ghost use Rattle.head.specs.Words.{thin_word};
ghost use Rattle.form.specs.Sheets.{target, within, cap_text, wish_text, edition_text, first_line};
ghost use Rattle.opening.specs.Wishes.{cap_for, wish_for};

use putting::{put_bits, put_count, put_tabbed, put_word};

// Writes the word of a sheet and its sizes.
fn put_sizes(out: &mut [u8], m: usize, n: usize) -> usize
    requires { 47 ≤ length out.old }
    ensures { WroteOn (thin_word ++ (tabbed m ++ tabbed n)) 0 out.old result out.new }
{
    let a = put_word(&mut out[..], 0, b"thin\t");
    let b = put_tabbed(&mut out[..], a, m as u64);
    put_tabbed(out, b, n as u64)
}

// Writes a cap: a dash, or a count.
fn put_cap(out: &mut [u8], at: usize, rule: u32, limit: u64) -> usize
    requires { at + 20 ≤ length out.old }
    ensures { WroteOn (cap_text (cap_for rule limit)) at out.old result out.new }
{
    if rule == 1 {
        return put_word(out, at, b"-");
    }
    put_count(out, at, limit)
}

// Writes an allowance and a cap.
fn put_within(out: &mut [u8], at: usize, rule: u32, allowance: u64, limit: u64) -> usize
    requires { at + 44 ≤ length out.old }
    ensures { WroteOn (wish_text (within allowance (cap_for rule limit))) at out.old result out.new }
{
    let a = put_word(&mut out[..], at, b"within\t");
    let b = put_bits(&mut out[..], a, allowance);
    let c = put_word(&mut out[..], b, b"\t");
    put_cap(out, c, rule, limit)
}

// Writes a target.
fn put_target(out: &mut [u8], at: usize, limit: u64) -> usize
    requires { at + 27 ≤ length out.old }
    ensures { WroteOn (wish_text (target limit)) at out.old result out.new }
{
    let a = put_word(&mut out[..], at, b"target\t");
    put_count(out, a, limit)
}

// Writes a rule.
fn put_wish(out: &mut [u8], at: usize, rule: u32, allowance: u64, limit: u64) -> usize
    requires { at + 44 ≤ length out.old }
    ensures { WroteOn (wish_text (wish_for rule allowance limit)) at out.old result out.new }
{
    if rule == 0 {
        return put_target(out, at, limit);
    }
    put_within(out, at, rule, allowance, limit)
}

// Writes the end of the first line, with the edition where it is 2.
fn put_edition(out: &mut [u8], at: usize, edition: u32) -> usize
    requires { at + 3 ≤ length out.old }
    ensures { WroteOn (edition_text edition) at out.old result out.new }
{
    if edition == 2 {
        return put_word(out, at, b"\t2\n");
    }
    put_word(out, at, b"\n")
}

// Writes the first line.
pub fn put_head(
    out: &mut [u8],
    m: usize,
    n: usize,
    seed: u64,
    edition: u32,
    rule: u32,
    allowance: u64,
    limit: u64,
) -> usize
    requires { 111 ≤ length out.old }
    ensures { WroteOn (first_line m n seed (wish_for rule allowance limit) edition) 0 out.old result out.new }
{
    let a = put_sizes(&mut out[..], m, n);
    let b = put_bits(&mut out[..], a, seed);
    let c = put_word(&mut out[..], b, b"\t");
    let d = put_wish(&mut out[..], c, rule, allowance, limit);
    put_edition(out, d, edition)
}
