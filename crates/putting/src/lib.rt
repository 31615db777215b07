// Bits, counts and words written in a text.
#![tactic(auto)]

ghost use Rattle.std.specs.Prelude.{◌≡◌, ◌+◌, ◌≤◌, length};
ghost use Rattle.fields.specs.Digits.{digit_for, digits_of};
ghost use Rattle.fields.specs.Texts.{bits_text, width_of, count_text, tabbed, note_text};
ghost use Rattle.fields.specs.Steps.{WroteOn};

use fields::{number, width_of};

// The digit that says d.
fn digit_for(d: u64) -> u8
    requires { d ≤ 15 }
    ensures { result ≡ digit_for d }
{
    if d < 10 {
        b'0' + d as u8
    } else {
        b'A' + (d - 10) as u8
    }
}

// The last digits of a number, as many as there is room for.
fn write_digits(a: &mut [u8], x: u64, base: u64)
    requires { (1 ≤ base) × (base ≤ 16) }
    ensures { a.new ≡ digits_of base x (length a.old) }
{
    let mut rest = x;
    for k in (0..a.len()).rev() {
        a[k] = digit_for(rest % base);
        rest /= base;
    }
}

// Writes a word at a place, and says where it ends.
pub fn put_word(out: &mut [u8], at: usize, word: &[u8]) -> usize
    requires { at + length word.now ≤ length out.old }
    ensures { WroteOn word.now at out.old result out.new }
{
    let end = at + word.len();
    copy_bytes(&mut out[at..end], word);
    end
}

// Writes bits at a place, and says where they end.
pub fn put_bits(out: &mut [u8], at: usize, x: u64) -> usize
    requires { at + 16 ≤ length out.old }
    ensures { WroteOn (bits_text x) at out.old result out.new }
{
    let end = at + 16;
    write_digits(&mut out[at..end], x, 16);
    end
}

// Writes a count at a place, and says where it ends.
pub fn put_count(out: &mut [u8], at: usize, x: u64) -> usize
    requires { at + width_of x ≤ length out.old }
    ensures { WroteOn (count_text x) at out.old result out.new }
{
    let end = at + width_of(x);
    write_digits(&mut out[at..end], x, 10);
    end
}

// Writes a count and a tab.
pub fn put_tabbed(out: &mut [u8], at: usize, x: u64) -> usize
    requires { at + width_of x + 1 ≤ length out.old }
    ensures { WroteOn (tabbed x) at out.old result out.new }
{
    let a = put_count(&mut out[..], at, x);
    put_word(out, a, b"\t")
}

// Writes a word, a number and a newline.
pub fn put_note(out: &mut [u8], at: usize, word: &[u8], number: u64) -> usize
    requires { at + length word.now + width_of number + 1 ≤ length out.old }
    ensures { WroteOn (note_text word.now number) at out.old result out.new }
{
    let a = put_word(&mut out[..], at, word);
    let b = put_count(&mut out[..], a, number);
    put_word(out, b, b"\n")
}

// b in the place of a, which is as long, by a loop: `copy_from_slice` would want memmove of the C library.
pub fn copy_bytes(a: &mut [u8], b: &[u8])
    requires { length a.old ≡ length b.now }
    ensures { a.new ≡ b.now }
{
    for (i, x) in a.iter_mut().enumerate() {
        *x = b[i];
    }
}
