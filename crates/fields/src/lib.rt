// The fields of a sheet: words, bits in hexadecimal and counts in decimal, read at a place of a text and written at a place of a buffer.
#![tactic(auto)]

ghost use Rattle.std.specs.Prelude.{◌≡◌, ◌+◌, ◌≤◌, SomeIff, true, length};
ghost use Rattle.fields.specs.Bytes.{byte_at, spelled};
ghost use Rattle.fields.specs.Digits.{is_digit, is_letter, digit_value, number_at};
ghost use Rattle.fields.specs.Fields.{is_bits, bits_at, width_at, has_count, count_at};
ghost use Rattle.fields.specs.Texts.{width_of};

// What stands at a place of a text: its value, and where the text goes on after it.
#[derive(Clone, Copy)]
pub struct Field {
    pub value: u64,
    pub next: usize,
}

// The byte at a place, and 0 past the end.
pub fn byte_at(text: &[u8], at: usize) -> u8
    ensures { result ≡ byte_at text.now at }
{
    text.get(at).copied().unwrap_or(0)
}

// Whether the word stands at a place.
pub fn spells(word: &[u8], text: &[u8], at: usize) -> bool
    requires { at + length word.now ≤ 65536 }
    ensures { result ≡ spelled word.now text.now at }
{
    word.iter()
        .enumerate()
        .all(|(k, b)| byte_at(text, at + k) == *b)
}

// Whether a byte is one of 0 to 9. A pattern of both kinds of digits is compiled to a branch, which a digit decides, and these tests are not.
fn is_digit(b: u8) -> bool
    ensures { result ≡ is_digit b }
{
    (b'0' <= b) & (b <= b'9')
}

// Whether a byte is one of A to F.
fn is_letter(b: u8) -> bool
    ensures { result ≡ is_letter b }
{
    (b'A' <= b) & (b <= b'F')
}

// What a digit says, and 0 for a byte that is none.
fn digit_value(b: u8) -> u64
    ensures { result ≡ digit_value b }
{
    if is_digit(b) {
        (b - b'0') as u64
    } else if is_letter(b) {
        (b - b'A') as u64 + 10
    } else {
        0
    }
}

// The number that so many digits from a place say.
pub fn number(text: &[u8], at: usize, width: usize, base: u64) -> u64
    requires { (at ≤ 65536) × (width ≤ 16) × (base ≤ 16) }
    ensures { result ≡ number_at base text.now at width }
{
    let mut v = 0u64;
    for k in 0..width {
        v = v * base + digit_value(byte_at(text, at + k));
    }
    v
}

// Whether sixteen digits of base 16 stand at a place, in upper case. All are asked.
pub fn is_bits(text: &[u8], at: usize) -> bool
    requires { at ≤ 65536 }
    ensures { result ≡ is_bits text.now at }
{
    let mut ok = true;
    for k in 0..16usize {
        let b = byte_at(text, at + k);
        ok &= is_digit(b) | is_letter(b);
    }
    ok
}

// The bits at a place.
pub fn bits_at(text: &[u8], at: usize) -> Option<Field>
    requires { at ≤ 65536 }
    ensures { SomeIff result (is_bits text.now at ≡ true) (bits_at text.now at) }
{
    if !is_bits(text, at) {
        return None;
    }
    Some(Field {
        value: number(text, at, 16, 16),
        next: at + 16,
    })
}

// How many decimal digits stand at a place, of at most 11.
pub fn width_at(text: &[u8], at: usize) -> usize
    requires { at ≤ 65536 }
    ensures { result ≡ width_at text.now at }
{
    for w in 0..11usize {
        if !byte_at(text, at + w).is_ascii_digit() {
            return w;
        }
    }
    11
}

// The count at a place.
pub fn count_at(text: &[u8], at: usize) -> Option<Field>
    requires { at ≤ 65536 }
    ensures { SomeIff result (has_count text.now at ≡ true) (count_at text.now at) }
{
    let w = width_at(text, at);
    if w == 0 || w > 10 || (w > 1 && byte_at(text, at) == b'0') {
        return None;
    }
    let value = number(text, at, w, 10);
    if value > 4294967295 {
        return None;
    }
    Some(Field {
        value,
        next: at + w,
    })
}

// How many decimal digits a number has.
pub fn width_of(x: u64) -> usize
    ensures { result ≡ width_of x }
{
    let mut rest = x;
    let mut w = 1usize;
    while 9 < rest {
        rest = rest / 10;
        w += 1;
    }
    w
}
