// The weights and the matrix that a sheet says, read.
#![tactic(auto)]

ghost use Rattle.std.specs.Prelude.{◌≡◌, length, ◌+◌, ◌<◌, ◌≤◌, ◌*◌};
ghost use Rattle.seq.specs.Lists.{tabulate};
ghost use Rattle.fields.specs.Fields.{bits_at};
ghost use Rattle.form.specs.Reading.{double_at, weight_place, entry_place};

use fields::number;
use head::double;

// The bits of weight j of columns that begin at a place.
pub fn weight_bits(text: &[u8], start: usize, n: usize, j: usize) -> u64
    requires { (start ≤ 1000) × (n ≤ 64) × (j ≤ 32) }
    ensures { result ≡ (bits_at text.now (weight_place start n j)).value }
{
    number(text, start + j * (21 + 17 * n) + 4, 16, 16)
}

// The bits of entry k of their matrix, which is of column k / n and row k % n.
pub fn entry_bits(text: &[u8], start: usize, n: usize, k: usize) -> u64
    requires { (start ≤ 1000) × (n ≤ 64) × (k < 32 * n) }
    ensures { result ≡ (bits_at text.now (entry_place start n k)).value }
{
    let line = start + (k / n) * (21 + 17 * n) + 4;
    number(text, line + 17 + 17 * (k % n), 16, 16)
}

// Reads the weights of columns that begin at a place.
pub fn read_weights(weights: &mut [f64], text: &[u8], start: usize, n: usize)
    requires { (start ≤ 1000) × (n ≤ 64) × (length weights.old ≤ 32) }
    ensures { weights.new ≡ tabulate (λ j. double_at text.now (weight_place start n j))
        (length weights.old) }
{
    for (j, weight) in weights.iter_mut().enumerate() {
        *weight = double(weight_bits(text, start, n, j));
    }
}

// Reads the matrix of columns that begin at a place.
pub fn read_matrix(matrix: &mut [f64], text: &[u8], start: usize, n: usize)
    requires { (start ≤ 1000) × (n ≤ 64) × (length matrix.old ≤ 32 * n) }
    ensures { matrix.new ≡ tabulate (λ k. double_at text.now (entry_place start n k))
        (length matrix.old) }
{
    for (k, entry) in matrix.iter_mut().enumerate() {
        *entry = double(entry_bits(text, start, n, k));
    }
}
