// The writer of sheets: doubles go in as their bits, so that every NaN keeps its pattern.
#![tactic(auto)]

ghost use Rattle.std.specs.Prelude.{◌≡◌, ◌*◌, ◌≤◌, length};
ghost use Rattle.fields.specs.Steps.{WroteOn};
ghost use Rattle.form.specs.Sheets.{sheet_text};
ghost use Rattle.refusal.specs.Refusals.{number_in};
ghost use Rattle.writing.specs.Writing.{sheet_for, write_fault, WroteFor};

use body::put_columns;
use opening::put_head;
use putting::copy_bytes;
use refusal::Refusal;

// What the writer answers: the refusal's number, 0 where there is none, and how long the text is.
#[derive(Clone, Copy)]
pub struct Written {
    pub number: u64,
    pub length: usize,
}

// What is refused before the text is known. An unknown rule is refused as a target of 0 is.
#[tactic(auto, unfolding(crate::specs::Writing::write_fault))]
fn write_fault(
    entries: usize,
    m: usize,
    n: usize,
    many: usize,
    edition: u32,
    rule: u32,
    limit: u64,
) -> Result<(), Refusal>
    ensures { number_in result ≡ write_fault entries m n many edition rule limit }
{
    if rule > 2 {
        return Err(Refusal::Zero);
    }
    if m > 32 || n > 64 || (rule != 1 && limit > 4294967295) {
        return Err(Refusal::Size);
    }
    if entries != m * n || many != m {
        return Err(Refusal::Length);
    }
    if edition != 1 && edition != 2 {
        return Err(Refusal::Edition);
    }
    Ok(())
}

// Writes a sheet at the front of a buffer that holds any, and says where it ends.
fn put_sheet(
    out: &mut [u8],
    matrix: &[u64],
    m: usize,
    n: usize,
    weights: &[u64],
    seed: u64,
    edition: u32,
    rule: u32,
    allowance: u64,
    limit: u64,
) -> usize
    requires { (m ≤ 32) × (n ≤ 64) × (length matrix.now ≡ m * n) × (length weights.now ≡ m) × (35600 ≤ length out.old) }
    ensures { WroteOn (sheet_text (sheet_for matrix.now m n weights.now seed edition rule allowance limit)) 0
        out.old result out.new }
{
    let start = put_head(&mut out[..], m, n, seed, edition, rule, allowance, limit);
    put_columns(out, start, matrix, n, weights)
}

// Writes the text of a sheet in a lent buffer, or refuses and leaves it as it is.
pub fn write_sheet(
    matrix: &[u64],
    m: usize,
    n: usize,
    weights: &[u64],
    seed: u64,
    edition: u32,
    rule: u32,
    allowance: u64,
    limit: u64,
    text: &mut [u8],
) -> Written
    ensures { WroteFor matrix.now m n weights.now seed edition rule allowance limit text.old result
        text.new }
{
    if let Err(refusal) = write_fault(matrix.len(), m, n, weights.len(), edition, rule, limit) {
        return Written {
            number: refusal.number(),
            length: 0,
        };
    }
    let mut out = [0u8; 35600];
    let long = put_sheet(
        &mut out[..],
        matrix,
        m,
        n,
        weights,
        seed,
        edition,
        rule,
        allowance,
        limit,
    );
    if text.len() < long {
        return Written {
            number: Refusal::Buffer.number(),
            length: 0,
        };
    }
    copy_bytes(&mut text[..long], &out[..long]);
    Written {
        number: 0,
        length: long,
    }
}
