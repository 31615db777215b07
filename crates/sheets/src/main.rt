// sheets: sheets of every kind and their answers: the worked cases, each refusal that a sheet can reach, each kind of wrong line,
// and editions of the draw.
#![tactic(auto)]

ghost use Rattle.std.specs.Prelude.{◌++◌, OnOk};
ghost use Rattle.std.specs.Io.KnownBytes.{Appends};
ghost use Rattle.sheet.specs.Answer.{sheet_answer};

use sheet::thin_sheet;
use std::io;
use std::io::Write;

// A title, and a sheet's answer.
fn show<W: Write>(out: &mut W, title: &[u8], text: &[u8]) -> io::Result<()>
    ensures { OnOk result (Appends (W.contents out.old) (W.contents out.new) (title.now ++ sheet_answer text.now)) }
{
    let mut answer = [0u8; 1342];
    let end = thin_sheet(text, &mut answer[..]);
    out.write_all(title)?;
    out.write_all(&answer[..end])?;
    Ok(())
}

// Worked cases that are accepted.
fn accepted<W: Write>(out: &mut W) -> io::Result<()> {
    show(
        out,
        b"C1\n",
        b"thin\t2\t2\t0000000000000000\twithin\t3FE0000000000000\t-\n\
          col\t3FF0000000000000\t3FF0000000000000\t3FF0000000000000\n\
          col\t4008000000000000\t3FF0000000000000\tBFF0000000000000\n",
    )?;
    show(
        out,
        b"C2\n",
        b"thin\t2\t2\t0000000000000000\twithin\t3FDFFFFFFFFFFFFF\t-\n\
          col\t3FF0000000000000\t3FF0000000000000\t3FF0000000000000\n\
          col\t4008000000000000\t3FF0000000000000\tBFF0000000000000\n",
    )?;
    show(
        out,
        b"C3\n",
        b"thin\t2\t2\t0000000000000000\twithin\t0000000000000000\t1\n\
          col\t3FF0000000000000\t3FF0000000000000\t3FF0000000000000\n\
          col\t4008000000000000\t3FF0000000000000\tBFF0000000000000\n",
    )?;
    show(
        out,
        b"C4\n",
        b"thin\t2\t2\t0000000000000000\ttarget\t1\n\
          col\t3FF0000000000000\t3FF0000000000000\t3FF0000000000000\n\
          col\t3FF0000000000000\t3FF0000000000000\tBFF0000000000000\n",
    )?;
    show(
        out,
        b"C5\n",
        b"thin\t2\t2\t0000000000000000\ttarget\t1\n\
          col\tC008000000000000\t3FF0000000000000\t3FF0000000000000\n\
          col\t3FF0000000000000\t3FF0000000000000\tBFF0000000000000\n",
    )?;
    show(
        out,
        b"C6\n",
        b"thin\t2\t2\t0000000000000000\ttarget\t1\n\
          col\t4010000000000000\t3FF0000000000000\t3FF0000000000000\n\
          col\t0000000000000001\t3FF0000000000000\tBFF0000000000000\n",
    )?;
    show(
        out,
        b"C8 support 3\n",
        b"thin\t3\t1\t0000000000000000\ttarget\t2\n\
          col\t3FF0000000000000\t3FF0000000000000\n\
          col\t4000000000000000\t3FF0000000000000\n\
          col\tC008000000000000\t3FF0000000000000\n",
    )?;
    show(
        out,
        b"C8 support 4\n",
        b"thin\t4\t1\t0000000000000000\ttarget\t3\n\
          col\t3FF0000000000000\t3FF0000000000000\n\
          col\t4010000000000000\t3FF0000000000000\n\
          col\t3FF0000000000000\tBFF0000000000000\n\
          col\t3FF0000000000000\t3FF0000000000000\n",
    )?;
    show(
        out,
        b"allowance minus zero\n",
        b"thin\t2\t2\t0000000000000000\twithin\t8000000000000000\t-\n\
          col\t3FF0000000000000\t3FF0000000000000\t3FF0000000000000\n\
          col\t4008000000000000\t3FF0000000000000\tBFF0000000000000\n",
    )?;
    show(
        out,
        b"allowance largest\n",
        b"thin\t2\t2\t0000000000000000\twithin\t7FEFFFFFFFFFFFFF\t-\n\
          col\t3FF0000000000000\t3FF0000000000000\t3FF0000000000000\n\
          col\t4008000000000000\t3FF0000000000000\tBFF0000000000000\n",
    )?;
    Ok(())
}

// Each refusal that a sheet can reach.
fn refused<W: Write>(out: &mut W) -> io::Result<()> {
    show(
        out,
        b"C14\n",
        b"thin\t2\t2\t0000000000000000\twithin\t7FF8000000000000\t0\n\
          col\t3FF0000000000000\t3FF0000000000000\t3FF0000000000000\n\
          col\t4008000000000000\t3FF0000000000000\tBFF0000000000000\n",
    )?;
    show(
        out,
        b"1 negative allowance\n",
        b"thin\t2\t2\t0000000000000000\twithin\tBFF0000000000000\t-\n\
          col\t3FF0000000000000\t3FF0000000000000\t3FF0000000000000\n\
          col\t4008000000000000\t3FF0000000000000\tBFF0000000000000\n",
    )?;
    show(
        out,
        b"12 infinite allowance\n",
        b"thin\t2\t2\t0000000000000000\twithin\t7FF0000000000000\t0\n\
          col\t3FF0000000000000\t3FF0000000000000\t3FF0000000000000\n\
          col\t4008000000000000\t3FF0000000000000\tBFF0000000000000\n",
    )?;
    show(
        out,
        b"2 target 0\n",
        b"thin\t2\t2\t0000000000000000\ttarget\t0\n\
          col\t3FF0000000000000\t3FF0000000000000\t3FF0000000000000\n\
          col\t4008000000000000\t3FF0000000000000\tBFF0000000000000\n",
    )?;
    show(
        out,
        b"2 cap 0\n",
        b"thin\t2\t2\t0000000000000000\twithin\t3FE0000000000000\t0\n\
          col\t3FF0000000000000\t3FF0000000000000\t3FF0000000000000\n\
          col\t4008000000000000\t3FF0000000000000\tBFF0000000000000\n",
    )?;
    show(
        out,
        b"5 no column\n",
        b"thin\t0\t2\t0000000000000000\ttarget\t1\n",
    )?;
    show(
        out,
        b"5 no row\n",
        b"thin\t1\t0\t0000000000000000\ttarget\t1\ncol\t3FF0000000000000\n",
    )?;
    show(
        out,
        b"7 entry 2\n",
        b"thin\t1\t1\t0000000000000000\ttarget\t1\ncol\t3FF0000000000000\t4000000000000000\n",
    )?;
    show(
        out,
        b"7 entry NaN\n",
        b"thin\t1\t1\t0000000000000000\ttarget\t1\ncol\t3FF0000000000000\t7FF8000000000001\n",
    )?;
    show(
        out,
        b"8 infinite weight\n",
        b"thin\t1\t1\t0000000000000000\ttarget\t1\ncol\t7FF0000000000000\t3FF0000000000000\n",
    )?;
    show(
        out,
        b"9 C7\n",
        b"thin\t2\t2\t0000000000000000\ttarget\t1\n\
          col\t0000000000000000\t3FF0000000000000\t3FF0000000000000\n\
          col\t0000000000000000\t3FF0000000000000\tBFF0000000000000\n",
    )?;
    Ok(())
}

// Sheets whose first line is wrong.
fn wrong_first<W: Write>(out: &mut W) -> io::Result<()> {
    show(out, b"empty text\n", b"")?;
    show(
        out,
        b"lower-case digit\n",
        b"thin\t1\t1\t000000000000000a\ttarget\t1\ncol\t3FF0000000000000\t3FF0000000000000\n",
    )?;
    show(
        out,
        b"leading zero\n",
        b"thin\t1\t1\t0000000000000000\ttarget\t01\ncol\t3FF0000000000000\t3FF0000000000000\n",
    )?;
    show(
        out,
        b"double tab\n",
        b"thin\t1\t1\t0000000000000000\ttarget\t\t1\ncol\t3FF0000000000000\t3FF0000000000000\n",
    )?;
    show(
        out,
        b"carriage return\n",
        b"thin\t1\t1\t0000000000000000\ttarget\t1\r\ncol\t3FF0000000000000\t3FF0000000000000\n",
    )?;
    show(
        out,
        b"33 columns\n",
        b"thin\t33\t1\t0000000000000000\ttarget\t1\ncol\t3FF0000000000000\t3FF0000000000000\n",
    )?;
    show(
        out,
        b"65 rows\n",
        b"thin\t1\t65\t0000000000000000\ttarget\t1\ncol\t3FF0000000000000\t3FF0000000000000\n",
    )?;
    show(
        out,
        b"count beyond 4294967295\n",
        b"thin\t1\t1\t0000000000000000\ttarget\t4294967296\ncol\t3FF0000000000000\t3FF0000000000000\n",
    )?;
    show(
        out,
        b"too many fields\n",
        b"thin\t1\t1\t0000000000000000\ttarget\t1\t1\ncol\t3FF0000000000000\t3FF0000000000000\n",
    )?;
    show(
        out,
        b"wrong word\n",
        b"thick\t1\t1\t0000000000000000\ttarget\t1\ncol\t3FF0000000000000\t3FF0000000000000\n",
    )?;
    Ok(())
}

// Sheets of which a later line is wrong, and a count that is the largest.
fn wrong_later<W: Write>(out: &mut W) -> io::Result<()> {
    show(
        out,
        b"lower-case digit in line 2\n",
        b"thin\t1\t1\t0000000000000000\ttarget\t1\ncol\t3fF0000000000000\t3FF0000000000000\n",
    )?;
    show(
        out,
        b"too many fields in line 2\n",
        b"thin\t1\t1\t0000000000000000\ttarget\t1\ncol\t3FF0000000000000\t3FF0000000000000\t3FF0000000000000\n",
    )?;
    show(
        out,
        b"too few fields in line 2\n",
        b"thin\t1\t1\t0000000000000000\ttarget\t1\ncol\t3FF0000000000000\n",
    )?;
    show(
        out,
        b"wrong word in line 2\n",
        b"thin\t1\t1\t0000000000000000\ttarget\t1\nrow\t3FF0000000000000\t3FF0000000000000\n",
    )?;
    show(
        out,
        b"missing last newline\n",
        b"thin\t1\t1\t0000000000000000\ttarget\t1\ncol\t3FF0000000000000\t3FF0000000000000",
    )?;
    show(
        out,
        b"missing column line\n",
        b"thin\t2\t2\t0000000000000000\ttarget\t1\ncol\t3FF0000000000000\t3FF0000000000000\t3FF0000000000000\n",
    )?;
    show(
        out,
        b"line after the end\n",
        b"thin\t1\t1\t0000000000000000\ttarget\t1\n\
          col\t3FF0000000000000\t3FF0000000000000\n\
          col\t3FF0000000000000\t3FF0000000000000\n",
    )?;
    show(
        out,
        b"newline after the end\n",
        b"thin\t1\t1\t0000000000000000\ttarget\t1\ncol\t3FF0000000000000\t3FF0000000000000\n\n",
    )?;
    show(
        out,
        b"target 4294967295\n",
        b"thin\t1\t1\t0000000000000000\ttarget\t4294967295\ncol\t3FF0000000000000\t3FF0000000000000\n",
    )?;
    Ok(())
}

// Sheets with a last field in their first line: edition 2 is the only one that is written.
fn editions<W: Write>(out: &mut W) -> io::Result<()> {
    show(
        out,
        b"C1 by edition 2\n",
        b"thin\t2\t2\t0000000000000000\twithin\t3FE0000000000000\t-\t2\n\
          col\t3FF0000000000000\t3FF0000000000000\t3FF0000000000000\n\
          col\t4008000000000000\t3FF0000000000000\tBFF0000000000000\n",
    )?;
    show(
        out,
        b"2 target 0 by edition 2\n",
        b"thin\t1\t1\t0000000000000000\ttarget\t0\t2\ncol\t3FF0000000000000\t3FF0000000000000\n",
    )?;
    show(
        out,
        b"edition 1 written\n",
        b"thin\t1\t1\t0000000000000000\twithin\t0000000000000000\t-\t1\ncol\t3FF0000000000000\t3FF0000000000000\n",
    )?;
    show(
        out,
        b"edition 3\n",
        b"thin\t1\t1\t0000000000000000\ttarget\t1\t3\ncol\t3FF0000000000000\t3FF0000000000000\n",
    )?;
    show(
        out,
        b"edition with a leading zero\n",
        b"thin\t1\t1\t0000000000000000\ttarget\t1\t02\ncol\t3FF0000000000000\t3FF0000000000000\n",
    )?;
    Ok(())
}

fn main(rt: HostRuntime) -> io::Result<()> {
    let mut out = rt.stdout();
    accepted(&mut out)?;
    refused(&mut out)?;
    wrong_first(&mut out)?;
    wrong_later(&mut out)?;
    editions(&mut out)
}
