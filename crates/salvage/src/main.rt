// salvage: reads a damaged sheet of any length from standard input and writes what is good of it to standard output. Whatever comes, it
// holds the first line, at most 32 columns' lines, a mark for each, the number of lines and a piece of 64 KiB.
#![tactic(auto)]

ghost use Rattle.std.specs.Prelude.{◌+◌, ◌≤◌, ◌<◌, length, IfOk, OnOk, IfSome};
ghost use Rattle.std.specs.Io.KnownBytes.{Appends};
ghost use Rattle.gathering.specs.Lines.{no_lines, after};
ghost use Rattle.gathering.specs.Steps.{Held, Holding};
ghost use Rattle.keeping.specs.Saved.{lost_text, salvaged};
ghost use Rattle.keeping.specs.Steps.{kept_in, held_text};

use gathering::{State, feed, start};
use intake::read_full;
use keeping::{judged_of, put_front};
use salvaging::put_losses;
use std::io;
use std::io::{Read, Write};

// Reads piece after piece, and holds what is to be held of each: of a text of fewer than 2^46 bytes, what is to be held of all of it. After
// 2^46 pieces, which no machine reads, it stops.
fn read_all<R: Read>(input: &mut R, room: &mut [u8], marks: &mut [u8]) -> io::Result<State>
    requires { (36700 ≤ length room.old) × (33 ≤ length marks.old) }
    ensures held { IfOk result (λ s. (Held s room.new marks.new) × (s.lines < 9223372036854775808)) }
    ensures all { IfOk result (λ s. IfSome (R.remaining input.old)
        (λ text. length text < 70368744177664 → Holding (after no_lines text) s room.new marks.new)) }
{
    let mut s = start(&mut marks[..]);
    let mut piece = [0u8; 65536];
    for _turn in 0..70368744177664u64 {
        let long = read_full(input, &mut piece[..])?;
        if long == 0 {
            return Ok(s);
        }
        s = feed(s, &piece[..long], &mut room[..], &mut marks[..]);
    }
    Ok(s)
}

// Writes the lines of those of the first k lines behind line 1 that are lost, at most 2000 at a time.
fn write_losses<W: Write>(output: &mut W, s: State, marks: &[u8], k: usize) -> io::Result<()>
    requires { (s.m ≤ 32) × (33 ≤ length marks.now) × (k < 9223372036854775808) }
    ensures { OnOk result (Appends (W.contents output.old) (W.contents output.new) (lost_text (kept_in s marks.now) 1 k)) }
{
    let mut out = [0u8; 52000];
    let mut i = 0usize;
    while i < k {
        let some = (k - i).min(2000);
        let long = put_losses(&mut out[..], 0, s, marks, 1 + i, some);
        output.write_all(&out[..long])?;
        i += some;
    }
    Ok(())
}

// Writes what is saved.
fn write_saved<W: Write>(output: &mut W, s: State, room: &[u8], marks: &[u8]) -> io::Result<()>
    requires { (Held s room.now marks.now) × (s.lines < 9223372036854775808) }
    ensures { OnOk result (Appends (W.contents output.old) (W.contents output.new) (held_text s room.now marks.now)) }
{
    let mut out = [0u8; 35700];
    let long = put_front(&mut out[..], s, room);
    let k = judged_of(s);
    output.write_all(&out[..long])?;
    write_losses(output, s, marks, k)?;
    Ok(())
}

// Writes what is good of a damaged sheet: of one of fewer than 2^46 bytes what is saved of all of it.
pub fn save<R: Read, W: Write>(input: &mut R, output: &mut W) -> io::Result<()>
    ensures { OnOk result (IfSome (R.remaining input.old)
        (λ text. length text < 70368744177664
        → Appends (W.contents output.old) (W.contents output.new) (salvaged (after no_lines text)))) }
{
    let mut room = [0u8; 36700];
    let mut marks = [0u8; 33];
    let s = read_all(input, &mut room[..], &mut marks[..])?;
    write_saved(output, s, &room[..], &marks[..])?;
    Ok(())
}

fn main(rt: HostRuntime) -> io::Result<()> {
    save(&mut rt.stdin(), &mut rt.stdout())
}
