// What the programs print: text, counts, the bits of a double, weights, an answer and its path.
#![tactic(auto)]

ghost use Rattle.std.specs.Prelude.{[], ◌∷◌, OnOk, decimal};
ghost use Rattle.std.specs.Io.KnownBytes.{Appends};

use answers::Answer;
use std::io;
use std::io::Write;

// A text.
pub fn put<W: Write>(out: &mut W, text: &[u8]) -> io::Result<()>
    ensures { OnOk result (Appends (W.contents out.old) (W.contents out.new) text.now) }
{
    out.write_all(text)
}

// The end of a field.
pub fn tab<W: Write>(out: &mut W) -> io::Result<()>
    ensures { OnOk result (Appends (W.contents out.old) (W.contents out.new) (9 ∷ [])) }
{
    put(out, b"\t")
}

// A count.
pub fn print_count<W: Write>(out: &mut W, n: u64) -> io::Result<()>
    ensures { OnOk result (Appends (W.contents out.old) (W.contents out.new) (decimal n)) }
{
    write!(out, "{n}")
}

// Bits, as 16 hexadecimal digits.
pub fn print_hex<W: Write>(out: &mut W, bits: u64) -> io::Result<()> {
    write!(out, "{bits:016x}")
}

// The bits of a double; a NaN prints as 0.
pub fn print_bits<W: Write>(out: &mut W, x: f64) -> io::Result<()> {
    let bits = if x == x { f64::to_bits(x) } else { 0 };
    print_hex(out, bits)
}

// Number, stage, nonzero entries and change of an answer, parted by tabs.
pub fn print_answer<W: Write>(out: &mut W, a: &Answer) -> io::Result<()> {
    print_count(out, a.number)?;
    tab(out)?;
    print_count(out, a.stage)?;
    tab(out)?;
    print_count(out, a.nonzeros)?;
    tab(out)?;
    print_bits(out, a.change)
}

// The directions and the sweeps of an answer, a tab before each.
pub fn print_totals<W: Write>(out: &mut W, a: &Answer) -> io::Result<()> {
    tab(out)?;
    print_count(out, a.directions)?;
    tab(out)?;
    print_count(out, a.sweeps)
}

// Weights, a tab before each.
pub fn print_weights<W: Write>(out: &mut W, w: &[f64]) -> io::Result<()> {
    for x in w {
        tab(out)?;
        print_bits(out, *x)?;
    }
    Ok(())
}

// Counts, a tab before each.
pub fn print_counts<W: Write>(out: &mut W, k: &[u64]) -> io::Result<()> {
    for n in k {
        tab(out)?;
        print_count(out, *n)?;
    }
    Ok(())
}

// The path of an answer: the nonzero entries of its stages and then their changes, a tab before each.
pub fn print_path<W: Write>(out: &mut W, a: &Answer) -> io::Result<()> {
    print_counts(out, &a.path_nonzeros[..])?;
    print_weights(out, &a.path_change[..])
}
