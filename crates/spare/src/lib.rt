// The spare bits of a matrix of votes, tested.
#![tactic(auto)]

ghost use Rattle.std.specs.Prelude.{◌≡◌, ◌≤◌, ◌<◌, ◌+◌, ◌*◌, ◌/◌, ◌%◌, ◌^◌, not, length};
ghost use Rattle.seq.specs.Keep.{all_to};
ghost use Rattle.limits.specs.Votes.{bit_at, bytes_of, spare_clear};

// Bit j of a byte.
pub fn bit(byte: usize, j: usize) -> usize
    requires { j < 8 }
    ensures { result ≡ byte / 2 ^ j % 2 }
{
    (byte >> j) % 2
}

// Whether k bits from `from` on are all clear.
fn clear_from(bits: &[u8], from: usize, k: usize) -> bool
    requires { (from + k ≤ 8 * length bits.now) × (from + k < 2 ^ 32) }
    ensures { result ≡ all_to (λ i. not (bit_at bits.now (from + i))) k }
{
    let mut ok = true;
    for i in 0..k {
        let at = from + i;
        ok &= bit(usize::from(bits[at / 8]), at % 8) == 0;
    }
    ok
}

// Whether no spare bit is set, above the n rows of a column.
pub fn spare_clear(bits: &[u8], m: usize, n: usize) -> bool
    requires { (m ≤ 256) × (n ≤ 4096) × (length bits.now ≡ m * bytes_of n) }
    ensures { result ≡ spare_clear bits.now m n }
{
    let b = (n + 7) / 8;
    let k = 8 * b - n;
    let mut ok = true;
    for j in 0..m {
        let from = 8 * (j * b) + n;
        ok &= clear_from(bits, from, k);
    }
    ok
}
