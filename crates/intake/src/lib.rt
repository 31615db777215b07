// What the programs read with: a lent buffer is filled from a reader.
#![tactic(auto)]

ghost use Rattle.std.specs.Prelude.{◌≡◌, take, length, IfOk, IfSome};
ghost use Rattle.std.specs.Io.{ReadsAtMost};
ghost use Rattle.std.specs.Io.KnownBytes.{Consumes};

use std::io;
use std::io::Read;

// Reads until the buffer is full or the input ends, and says how many bytes it put at the buffer's front: as much of what the reader still
// has as there is room for. The error of a read ends it, and then nothing is said of what was read before. `read_exact` fails on an input that
// is shorter than the buffer, so each read is asked for here.
pub fn read_full<R: Read>(reader: &mut R, buf: &mut [u8]) -> io::Result<usize>
    ensures bound { ReadsAtMost result buf.new }
    ensures bytes { IfOk result (λ n. Consumes (R.remaining reader.old) (R.remaining reader.new) (take n buf.new)) }
    ensures front { IfOk result (λ n. IfSome (R.remaining reader.old)
        (λ text. take n buf.new ≡ take (length buf.new) text)) }
{
    let mut done = 0usize;
    while done < buf.len() {
        let n = reader.read(&mut buf[done..])?;
        if n == 0 {
            return Ok(done);
        }
        done += n;
    }
    Ok(done)
}
