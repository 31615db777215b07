// Colouring, change and turned words from a matrix of votes, one bit a margin: the bits are read where they stand, and every answer is that
// from the doubles that they stand for.
#![tactic(auto)]

ghost use Rattle.std.specs.Prelude.{◌≡◌};
ghost use Rattle.refusal.specs.Refusals.{number_in};
ghost use Rattle.pollfaults.specs.Polls.{BitsColored, bits_change_fault, bits_change, bits_turned};

use change::change_of;
use colorfaults::{Colored, write_colours};
use discrepancy::color_all;
use margins::{Change, Turned};
use pollfaults::{bits_coloring_fault, bits_turned_fault, poll_fault, spare_fault};
use refusal::Refusal;
use seq::fill;
use turned::turned_of;

// Colours the m columns of n votes, 1 or -1 each, so that every row's sum is small. A refusal changes nothing, and has zeros beside its
// number.
pub fn discrepancy_coloring_bits(
    bits: &[u8],
    m: usize,
    n: usize,
    seed: u64,
    output: &mut [i8],
    numbers: &mut [f64],
    indices: &mut [u32],
) -> Colored
    ensures { BitsColored bits.now m n seed output.old numbers.old
        indices.old result output.new numbers.new indices.new }
{
    if let Err(refusal) = bits_coloring_fault(
        bits,
        m,
        n,
        output.len(),
        numbers.len(),
        indices.len(),
    ) {
        return Colored {
            number: refusal.number(),
            directions: 0,
            sweeps: 0,
        };
    }
    let none = [0.0f64; 0];
    let mut x = [0.0f64; 256];
    let c = color_all(
        &none[..],
        bits,
        m,
        n,
        seed,
        &mut x[..m],
        &mut numbers[..],
        &mut indices[..],
    );
    write_colours(output, &x[..m]);
    fill(numbers, 0.0);
    fill(indices, 0);
    Colored {
        number: 0,
        directions: c.directions as u64,
        sweeps: c.sweeps as u64,
    }
}

// What a change is refused for.
fn change_fault(
    bits: &[u8],
    m: usize,
    n: usize,
    before: &[f64],
    after: &[f64],
) -> Result<(), Refusal>
    ensures { number_in result ≡ bits_change_fault bits.now m n before.now after.now }
{
    poll_fault(bits, m, n, before, after)?;
    spare_fault(bits, m, n)
}

// The largest change of any margin when the weights `before` are replaced by `after`, from bits.
pub fn max_margin_change_bits(
    bits: &[u8],
    m: usize,
    n: usize,
    before: &[f64],
    after: &[f64],
) -> Change
    ensures { result ≡ bits_change bits.now m n before.now after.now }
{
    if let Err(refusal) = change_fault(bits, m, n, before, after) {
        return Change {
            number: refusal.number(),
            change: 0.0,
        };
    }
    let none = [0.0f64; 0];
    Change {
        number: 0,
        change: change_of(&none[..], bits, n, before, after),
    }
}

// The number of words whose margin is above its threshold before and not after, or the reverse, from bits.
pub fn turned_words_bits(
    bits: &[u8],
    m: usize,
    n: usize,
    before: &[f64],
    after: &[f64],
    thresholds: &[f64],
) -> Turned
    ensures { result ≡ bits_turned bits.now m n before.now after.now thresholds.now }
{
    if let Err(refusal) = bits_turned_fault(bits, m, n, before, after, thresholds) {
        return Turned {
            number: refusal.number(),
            count: 0,
        };
    }
    let none = [0.0f64; 0];
    Turned {
        number: 0,
        count: turned_of(&none[..], bits, n, before, after, thresholds) as u64,
    }
}
