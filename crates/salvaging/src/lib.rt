// What is saved of a damaged sheet: the good sheet and the numbers of the lines that are lost, written from what is held of it.
#![tactic(auto)]

ghost use Rattle.std.specs.Prelude.{◌≡◌, ◌+◌, ◌≤◌, ◌<◌, leb, length};
ghost use Rattle.fields.specs.Steps.{WroteOn};
ghost use Rattle.gathering.specs.Lines.{no_lines, after};
ghost use Rattle.gathering.specs.Steps.{Held};
ghost use Rattle.keeping.specs.Saved.{lost_line, lost_text, salvaged, Laid};
ghost use Rattle.keeping.specs.Steps.{kept_in, LossesLent, held_text};

use fields::width_of;
use gathering::{State, feed, start};
use keeping::{judged_of, put_front};
use putting::{copy_bytes, put_note};

// Whether line j is marked as kept.
fn is_kept(s: State, marks: &[u8], j: usize) -> bool
    requires { (s.m ≤ 32) × (33 ≤ length marks.now) }
    ensures { result ≡ kept_in s marks.now j }
{
    j <= s.m && marks[j] != 0
}

// Writes the line of a line that is lost, and nothing of one that is kept.
fn put_lost(out: &mut [u8], at: usize, kept: bool, number: u64) -> usize
    requires { at + length (lost_line kept number) ≤ length out.old }
    ensures { WroteOn (lost_line kept number) at out.old result out.new }
{
    if kept {
        return at;
    }
    put_note(out, at, b"lost\t", number)
}

// Writes the lines of those of k lines from line a that are lost.
pub fn put_losses(out: &mut [u8], at: usize, s: State, marks: &[u8], a: usize, k: usize) -> usize
    requires { LossesLent out.old at s marks.now a k }
    ensures { WroteOn (lost_text (kept_in s marks.now) a k) at out.old result out.new }
{
    let mut end = at;
    for i in 0..k {
        let j = a + i;
        let kept = is_kept(s, marks, j);
        end = put_lost(&mut out[..], end, kept, (j + 1) as u64);
    }
    end
}

// How long the line of a line that is lost is, and 0 for one that is kept.
fn lost_long(kept: bool, number: u64) -> usize
    ensures { result ≡ length (lost_line kept number) }
{
    if kept {
        return 0;
    }
    6 + width_of(number)
}

// Whether the lines of those of k lines from line a that are lost fit so many bytes.
fn losses_fit(s: State, marks: &[u8], a: usize, k: usize, room: usize) -> bool
    requires { (s.m ≤ 32) × (33 ≤ length marks.now) × (a + k < 18446744073709551615) }
    ensures { result ≡ leb (length (lost_text (kept_in s marks.now) a k)) room }
{
    let mut left = room;
    for i in 0..k {
        let j = a + i;
        let wide = lost_long(is_kept(s, marks, j), (j + 1) as u64);
        if left < wide {
            return false;
        }
        left -= wide;
    }
    true
}

// Writes what is saved in a lent buffer, and says how long it is. Where it does not fit, nothing is written and 0 is said.
fn answer_held(answer: &mut [u8], s: State, room: &[u8], marks: &[u8]) -> usize
    requires { (Held s room.now marks.now) × (s.lines < 9223372036854775808) }
    ensures { Laid (held_text s room.now marks.now) answer.old result answer.new }
{
    let mut out = [0u8; 35700];
    let long = put_front(&mut out[..], s, room);
    let k = judged_of(s);
    if answer.len() < long {
        return 0;
    }
    if !losses_fit(s, marks, 1, k, answer.len() - long) {
        return 0;
    }
    copy_bytes(&mut answer[..long], &out[..long]);
    put_losses(answer, long, s, marks, 1, k)
}

// Saves what is good of a damaged sheet that is whole in memory.
pub fn salvage(text: &[u8], answer: &mut [u8]) -> usize
    ensures { Laid (salvaged (after no_lines text.now)) answer.old result answer.new }
{
    let mut room = [0u8; 36700];
    let mut marks = [0u8; 33];
    let empty = start(&mut marks[..]);
    let s = feed(empty, text, &mut room[..], &mut marks[..]);
    answer_held(answer, s, &room[..], &marks[..])
}
