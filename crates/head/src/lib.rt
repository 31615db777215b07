// The first line of a sheet, which fixes where every column stands: the counts of columns and rows, the seed, the rule and
// the edition.
#![tactic(auto)]

ghost use Rattle.std.specs.Prelude.{◌≡◌, ◌+◌, ◌≤◌, None, Option, Some, SomeIff, true};
ghost use Rattle.std.specs.Float.{binary64};
ghost use Rattle.std.specs.Float.Ieee.{of_bits};
ghost use Rattle.fields.specs.Fields.{has_count};
ghost use Rattle.head.specs.FirstLine.{has_cap, cap_at, target_at, has_within, within_at, has_rule, rule_at};
ghost use Rattle.head.specs.FirstLine.{has_sizes, sizes_at, has_edition, edition_at, has_head, head_of};

use fields::{bits_at, byte_at, count_at, spells};
use rules::Rule;

// A cap at a place, and where the text goes on.
#[derive(Clone, Copy)]
pub struct CapField {
    pub cap: Option<usize>,
    pub next: usize,
}

// A rule at a place, with the bits of its allowance, 0 where it has none.
#[derive(Clone, Copy)]
pub struct RuleField {
    pub rule: Rule,
    pub allowance: u64,
    pub next: usize,
}

// The edition at a place, where the first line ends.
#[derive(Clone, Copy)]
pub struct EditionField {
    pub edition: u32,
    pub next: usize,
}

// The counts of columns and rows.
#[derive(Clone, Copy)]
pub struct Sizes {
    pub m: usize,
    pub n: usize,
    pub next: usize,
}

// The first line of a sheet: what it says, and where the columns begin.
#[derive(Clone, Copy)]
pub struct Head {
    pub m: usize,
    pub n: usize,
    pub seed: u64,
    pub edition: u32,
    pub rule: Rule,
    pub allowance: u64,
    pub next: usize,
}

// The double of a bit pattern, here the allowance, and in `form` a weight or an entry; every pattern of a NaN is the NaN.
pub fn double(bits: u64) -> f64
    ensures { result ≡ of_bits binary64 bits }
{
    if bits % 0x8000_0000_0000_0000 <= 0x7ff0_0000_0000_0000 {
        f64::from_bits(bits)
    } else {
        0.0 / 0.0
    }
}

// The cap at a place: a dash or a count.
#[tactic(auto, unfolding(crate::specs::FirstLine::has_cap, crate::specs::FirstLine::cap_at))]
fn cap_at(text: &[u8], at: usize) -> Option<CapField>
    requires { at ≤ 65536 }
    ensures { SomeIff result (has_cap text.now at ≡ true) (cap_at text.now at) }
{
    if byte_at(text, at) == b'-' {
        return Some(CapField {
            cap: None,
            next: at + 1,
        });
    }
    let count = count_at(text, at)?;
    Some(CapField {
        cap: Some(count.value as usize),
        next: count.next,
    })
}

// The target at a place, which stands after its word.
fn target_at(text: &[u8], at: usize) -> Option<RuleField>
    requires { at ≤ 65536 }
    ensures { SomeIff result (has_count text.now at ≡ true) (target_at text.now at) }
{
    let count = count_at(text, at)?;
    Some(RuleField {
        rule: Rule::Target(count.value as usize),
        allowance: 0,
        next: count.next,
    })
}

// The allowance at a place and the cap behind it, which stand after their word.
#[tactic(auto, unfolding(crate::specs::FirstLine::has_within, crate::specs::FirstLine::within_at))]
fn within_at(text: &[u8], at: usize) -> Option<RuleField>
    requires { at + 17 ≤ 65536 }
    ensures { SomeIff result (has_within text.now at ≡ true) (within_at text.now at) }
{
    let bits = bits_at(text, at)?;
    if byte_at(text, at + 16) != b'\t' {
        return None;
    }
    let field = cap_at(text, at + 17)?;
    let allowance = double(bits.value);
    let cap = field.cap;
    Some(RuleField {
        rule: Rule::Within { allowance, cap },
        allowance: bits.value,
        next: field.next,
    })
}

// The rule at a place: "target" or "within", and what belongs to it.
#[tactic(auto, unfolding(crate::specs::FirstLine::has_rule, crate::specs::FirstLine::rule_at))]
fn rule_at(text: &[u8], at: usize) -> Option<RuleField>
    requires { at + 24 ≤ 65536 }
    ensures { SomeIff result (has_rule text.now at ≡ true) (rule_at text.now at) }
{
    if spells(b"target\t", text, at) {
        return target_at(text, at + 7);
    }
    if spells(b"within\t", text, at) {
        return within_at(text, at + 7);
    }
    None
}

// The counts of columns and rows, at a place and behind it.
#[tactic(auto, unfolding(crate::specs::FirstLine::has_sizes, crate::specs::FirstLine::sizes_at))]
fn sizes_at(text: &[u8], at: usize) -> Option<Sizes>
    requires { at + 12 ≤ 65536 }
    ensures { SomeIff result (has_sizes text.now at ≡ true) (sizes_at text.now at) }
{
    let columns = count_at(text, at)?;
    if columns.value > 32 || byte_at(text, columns.next) != b'\t' {
        return None;
    }
    let rows = count_at(text, columns.next + 1)?;
    if rows.value > 64 || byte_at(text, rows.next) != b'\t' {
        return None;
    }
    Some(Sizes {
        m: columns.value as usize,
        n: rows.value as usize,
        next: rows.next + 1,
    })
}

// The end of the first line, at a place: a newline for edition 1, and a tab, "2" and a newline for edition 2.
#[tactic(auto, unfolding(crate::specs::FirstLine::has_edition, crate::specs::FirstLine::edition_at))]
fn edition_at(text: &[u8], at: usize) -> Option<EditionField>
    requires { at + 3 ≤ 65536 }
    ensures { SomeIff result (has_edition text.now at ≡ true) (edition_at text.now at) }
{
    if spells(b"\t2\n", text, at) {
        return Some(EditionField {
            edition: 2,
            next: at + 3,
        });
    }
    if byte_at(text, at) != b'\n' {
        return None;
    }
    Some(EditionField {
        edition: 1,
        next: at + 1,
    })
}

// The first line: "thin", the sizes, the seed, the rule and the edition.
#[tactic(auto, using(crate::proofs::Places::reaches), unfolding(crate::specs::FirstLine::has_head, crate::specs::FirstLine::head_of))]
pub fn head_of(text: &[u8]) -> Option<Head>
    ensures { SomeIff result (has_head text.now ≡ true) (head_of text.now) }
{
    if !spells(b"thin\t", text, 0) {
        return None;
    }
    let sizes = sizes_at(text, 5)?;
    let seed = bits_at(text, sizes.next)?;
    if byte_at(text, sizes.next + 16) != b'\t' {
        return None;
    }
    let field = rule_at(text, sizes.next + 17)?;
    let last = edition_at(text, field.next)?;
    let rule = field.rule;
    Some(Head {
        m: sizes.m,
        n: sizes.n,
        seed: seed.value,
        edition: last.edition,
        rule,
        allowance: field.allowance,
        next: last.next,
    })
}
