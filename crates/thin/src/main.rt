// thin: reads a sheet from standard input and writes its answer to standard output.
#![tactic(auto)]

ghost use Rattle.std.specs.Prelude.{OnOk, IfSome};
ghost use Rattle.std.specs.Io.KnownBytes.{Appends};
ghost use Rattle.sheet.specs.Answer.{sheet_answer};

use intake::read_full;
use sheet::thin_sheet;
use std::io;
use std::io::{Read, Write};

// Reads a sheet of any length, of which 65536 bytes decide the answer, and writes its answer.
pub fn answer<R: Read, W: Write>(input: &mut R, output: &mut W) -> io::Result<()>
    ensures { OnOk result (IfSome (R.remaining input.old)
        (λ text. Appends (W.contents output.old) (W.contents output.new) (sheet_answer text))) }
{
    let mut text = [0u8; 65536];
    let mut answer = [0u8; 1342];
    let long = read_full(input, &mut text[..])?;
    let end = thin_sheet(&text[..long], &mut answer[..]);
    output.write_all(&answer[..end])?;
    Ok(())
}

fn main(rt: HostRuntime) -> io::Result<()> {
    answer(&mut rt.stdin(), &mut rt.stdout())
}
