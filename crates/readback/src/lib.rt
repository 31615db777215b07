// The reader of sheets as bits: doubles come out as their bits, so that every NaN keeps its pattern.
#![tactic(auto)]

ghost use Rattle.std.specs.Prelude.{◌≡◌, ◌++◌, ◌*◌, ◌≤◌, None, Option, Some, length, drop};
ghost use Rattle.seq.specs.Lists.{tabulate};
ghost use Rattle.fields.specs.Fields.{bits_at};
ghost use Rattle.form.specs.Reading.{weight_place, entry_place};
ghost use Rattle.readback.specs.ReadingBack.{cap_number, rule_number, cap_limit, limit_of, first_of, ReadBack};

use contents::{entry_bits, weight_bits};
use head::Head;
use lines::sheet_head;
use rules::Rule;

// The number of a rule with this cap.
fn cap_number(cap: Option<usize>) -> u64
    ensures { result ≡ cap_number cap }
{
    match cap {
        None => 1,
        Some(_) => 2,
    }
}

// The number of a rule.
fn rule_number(rule: Rule) -> u64
    ensures { result ≡ rule_number rule }
{
    match rule {
        Rule::Target(_) => 0,
        Rule::Within { cap, .. } => cap_number(cap),
    }
}

// What a cap says, and 0 where it is absent.
fn cap_limit(cap: Option<usize>) -> u64
    ensures { result ≡ cap_limit cap }
{
    match cap {
        None => 0,
        Some(c) => c as u64,
    }
}

// The target or the cap, and 0 where there is none.
fn limit_of(rule: Rule) -> u64
    ensures { result ≡ limit_of rule }
{
    match rule {
        Rule::Target(t) => t as u64,
        Rule::Within { cap, .. } => cap_limit(cap),
    }
}

// Writes what the first line says at the front of a list.
fn read_first(first: &mut [u64], head: Head)
    requires { 7 ≤ length first.old }
    ensures { first.new ≡ first_of head ++ drop 7 first.old }
{
    first[0] = head.m as u64;
    first[1] = head.n as u64;
    first[2] = head.seed;
    first[3] = head.edition as u64;
    first[4] = rule_number(head.rule);
    first[5] = head.allowance;
    first[6] = limit_of(head.rule);
}

// Reads the bits of the weights of columns that begin at a place.
fn read_weights(weights: &mut [u64], text: &[u8], start: usize, n: usize)
    requires { (start ≤ 1000) × (n ≤ 64) × (length weights.old ≤ 32) }
    ensures { weights.new ≡ tabulate (λ j. (bits_at text.now (weight_place start n j)).value)
        (length weights.old) }
{
    for (j, weight) in weights.iter_mut().enumerate() {
        *weight = weight_bits(text, start, n, j);
    }
}

// Reads the bits of their matrix.
fn read_matrix(matrix: &mut [u64], text: &[u8], start: usize, n: usize)
    requires { (start ≤ 1000) × (n ≤ 64) × (length matrix.old ≤ 32 * n) }
    ensures { matrix.new ≡ tabulate (λ k. (bits_at text.now (entry_place start n k)).value)
        (length matrix.old) }
{
    for (k, entry) in matrix.iter_mut().enumerate() {
        *entry = entry_bits(text, start, n, k);
    }
}

// Reads a sheet as bits into lent lists, or says what is wrong and leaves them as they are.
pub fn read_sheet(text: &[u8], matrix: &mut [u64], weights: &mut [u64], first: &mut [u64]) -> u64
    ensures { ReadBack text.now matrix.old weights.old first.old result matrix.new
        weights.new first.new }
{
    if matrix.len() < 2048 || weights.len() < 32 || first.len() < 7 {
        return u64::MAX;
    }
    let head = match sheet_head(text) {
        Ok(head) => head,
        Err(line) => return line as u64,
    };
    let size = head.m * head.n;
    read_matrix(&mut matrix[..size], text, head.next, head.n);
    read_weights(&mut weights[..head.m], text, head.next, head.n);
    read_first(first, head);
    0
}
