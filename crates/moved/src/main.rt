// moved: reads a sheet from standard input and writes its answer, with a line for each word that moved, to standard output.
#![tactic(auto)]

ghost use Rattle.std.specs.Prelude.{OnOk, IfSome};
ghost use Rattle.std.specs.Io.KnownBytes.{Appends};
ghost use Rattle.words.specs.Words.{moved_answer};

use intake::read_full;
use std::io;
use std::io::{Read, Write};
use words::moved_sheet;

// Reads a sheet of any length, of which 65536 bytes decide the answer, and writes its answer.
pub fn answer<R: Read, W: Write>(input: &mut R, output: &mut W) -> io::Result<()>
    ensures { OnOk result (IfSome (R.remaining input.old)
        (λ text. Appends (W.contents output.old) (W.contents output.new) (moved_answer text))) }
{
    let mut text = [0u8; 65536];
    let mut answer = [0u8; 4094];
    let long = read_full(input, &mut text[..])?;
    let end = moved_sheet(&text[..long], &mut answer[..]);
    output.write_all(&answer[..end])?;
    Ok(())
}

fn main(rt: HostRuntime) -> io::Result<()> {
    answer(&mut rt.stdin(), &mut rt.stdout())
}
