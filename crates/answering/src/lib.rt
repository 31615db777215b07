// The text of a job's answer, written in a buffer.
#![tactic(auto)]

ghost use Rattle.std.specs.Prelude.{◌≡◌, ◌+◌, ◌≤◌, ◌*◌, [], ◌∷◌, ◌++◌, length};
ghost use Rattle.std.specs.Float.{binary64};
ghost use Rattle.std.specs.Float.Ieee.{to_bits};
ghost use Rattle.fields.specs.Bytes.{newline};
ghost use Rattle.fields.specs.Texts.{bits_text};
ghost use Rattle.fields.specs.Steps.{WroteOn};
ghost use Rattle.answering.specs.Answer.{ok_line, weight_line, weight_lines, answer_text};
ghost use Rattle.answering.specs.Steps.{Wrote};

use answers::Answer;
use putting::{put_bits, put_note, put_tabbed, put_word};

// The bits of a double; every NaN has one pattern, which `to_bits` alone does not promise.
fn pattern(x: f64) -> u64
    ensures { result ≡ to_bits binary64 x }
{
    if x.is_nan() {
        0x7ff8_0000_0000_0000
    } else {
        x.to_bits()
    }
}

// Writes bits and a newline.
pub fn put_last(out: &mut [u8], at: usize, x: f64) -> usize
    requires { at + 17 ≤ length out.old }
    ensures { WroteOn (bits_text (to_bits binary64 x) ++ (newline ∷ [])) at out.old result out.new }
{
    let a = put_bits(&mut out[..], at, pattern(x));
    put_word(out, a, b"\n")
}

// Writes the first line of an accepted job's answer.
fn put_ok(out: &mut [u8], r: Answer) -> usize
    requires { 62 ≤ length out.old }
    ensures { Wrote (ok_line r) out.old result out.new }
{
    let a = put_word(&mut out[..], 0, b"ok\t");
    let b = put_tabbed(&mut out[..], a, r.stage);
    let c = put_tabbed(&mut out[..], b, r.nonzeros);
    put_last(out, c, r.change)
}

// Writes the line of a weight.
fn put_weight(out: &mut [u8], at: usize, j: usize, w: f64) -> usize
    requires { at + 40 ≤ length out.old }
    ensures { WroteOn (weight_line j w) at out.old result out.new }
{
    let a = put_word(&mut out[..], at, b"w\t");
    let b = put_tabbed(&mut out[..], a, j as u64);
    put_last(out, b, w)
}

// Writes the lines of the weights.
fn put_weights(out: &mut [u8], at: usize, w: &[f64]) -> usize
    requires { at + 40 * length w.now ≤ length out.old }
    ensures { WroteOn (weight_lines w.now (length w.now)) at out.old result out.new }
{
    let mut end = at;
    for (j, x) in w.iter().enumerate() {
        end = put_weight(&mut out[..], end, j, *x);
    }
    end
}

// Writes the answer of a job, with the weights that it returned.
pub fn put_answer(out: &mut [u8], r: Answer, w: &[f64]) -> usize
    requires { 62 + 40 * length w.now ≤ length out.old }
    ensures { Wrote (answer_text r w.now) out.old result out.new }
{
    if r.number != 0 {
        return put_note(out, 0, b"refused\t", r.number);
    }
    let end = put_ok(&mut out[..], r);
    put_weights(out, end, w)
}
