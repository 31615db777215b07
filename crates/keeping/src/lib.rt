// The good sheet of what is saved, written.
#![tactic(auto)]

ghost use Rattle.std.specs.Prelude.{◌≡◌, ◌+◌, ◌≤◌, ◌<◌, length};
ghost use Rattle.fields.specs.Fields.{count_at};
ghost use Rattle.fields.specs.Steps.{WroteOn};
ghost use Rattle.keeping.specs.Saved.{corrected};
ghost use Rattle.keeping.specs.Steps.{Opened, front_in, judged_in};

use fields::width_at;
use gathering::State;
use putting::{put_count, put_note, put_word};

// Writes a sheet with another number of columns in the place of its own.
fn put_good(out: &mut [u8], kept: usize, sheet: &[u8]) -> usize
    requires { ((count_at sheet.now 5).next ≤ length sheet.now) × (25 + length sheet.now ≤ length out.old) }
    ensures { WroteOn (corrected sheet.now kept) 0 out.old result out.new }
{
    let place = 5 + width_at(sheet, 5);
    let a = put_word(&mut out[..], 0, b"thin\t");
    let b = put_count(&mut out[..], a, kept as u64);
    put_word(out, b, &sheet[place..])
}

// Writes what stands before the lines of those that are lost.
#[tactic(auto, using(fields::proofs::Widths::width_most), unfolding(crate::specs::Steps::front_in))]
pub fn put_front(out: &mut [u8], s: State, room: &[u8]) -> usize
    requires { (s.end ≤ 35572) × (s.end ≤ length room.now) × (35700 ≤ length out.old) × (Opened s room.now) }
    ensures { WroteOn (front_in s room.now) 0 out.old result out.new }
{
    if !s.good {
        return put_note(out, 0, b"bad\t", 1);
    }
    if s.m > 0 && s.kept == 0 {
        return put_note(out, 0, b"bad\t", 2);
    }
    let end = s.end;
    put_good(out, s.kept, &room[..end])
}

// How many lines behind the first are kept or lost: none where all is bad.
#[tactic(auto, unfolding(crate::specs::Steps::judged_in))]
pub fn judged_of(s: State) -> usize
    requires { s.lines < 9223372036854775808 }
    ensures { result ≡ judged_in s }
{
    if !s.good || (s.m > 0 && s.kept == 0) {
        return 0;
    }
    if s.long == 0 {
        s.lines.saturating_sub(1)
    } else {
        s.lines
    }
}
