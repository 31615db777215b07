// Sheets from a bad cable: the good lines of a damaged sheet, read in pieces of any length and kept in lent buffers.
#![tactic(auto)]

ghost use Rattle.std.specs.Prelude.{◌≡◌, ◌+◌, ◌≤◌, ◌<◌, [], ◌∷◌, length};
ghost use Rattle.seq.specs.Lists.{repeated};
ghost use Rattle.gathering.specs.Kept.{is_line};
ghost use Rattle.gathering.specs.Steps.{HeldByte, first_state, LineLent, HeldLine, Held, Took, start_state};

use head::head_of;
use lines::is_column;

// What was read so far: the whole lines, the bytes of the one that is not whole that are held, where the kept text ends, the kept columns,
// whether the first line is good, and its sizes.
#[derive(Clone, Copy)]
pub struct State {
    pub lines: usize,
    pub long: usize,
    pub end: usize,
    pub kept: usize,
    pub good: bool,
    pub m: usize,
    pub n: usize,
}

// Holds a byte of a line behind those before it, if there is room for more of the line, and says how many are held.
fn hold(room: &mut [u8], end: usize, long: usize, b: u8) -> usize
    requires { (end + 1110 ≤ length room.old) × (long ≤ 1110) }
    ensures { HeldByte b end long room.old result room.new }
{
    if long < 1110 {
        room[end + long] = b;
        return long + 1;
    }
    long
}

// What is held after the first line.
#[tactic(auto, unfolding(crate::specs::Kept::is_first, crate::specs::Steps::first_state))]
fn first_line(line: &[u8]) -> State
    ensures { result ≡ first_state line.now }
{
    match head_of(line) {
        Some(head) if head.next == line.len() => State {
            lines: 1,
            long: 0,
            end: line.len(),
            kept: 0,
            good: true,
            m: head.m,
            n: head.n,
        },
        _ => State {
            lines: 1,
            long: 0,
            end: 0,
            kept: 0,
            good: false,
            m: 0,
            n: 0,
        },
    }
}

// Whether a line is a column's, of n entries.
#[tactic(auto, unfolding(crate::specs::Kept::is_line))]
fn is_line(line: &[u8], n: usize) -> bool
    requires { n ≤ 64 }
    ensures { result ≡ is_line n line.now }
{
    line.len() == 21 + 17 * n && is_column(line, n, 0)
}

// What is held after a later line, and its mark.
#[tactic(auto, unfolding(crate::specs::Steps::later_state))]
fn later_line(s: State, line: &[u8], marks: &mut [u8]) -> State
    requires { LineLent s line.now marks.old }
    ensures { HeldLine s line.now marks.old result marks.new }
{
    let number = s.lines;
    if s.good && number <= s.m && is_line(line, s.n) {
        marks[number] = 1;
        return State {
            lines: number + 1,
            long: 0,
            end: s.end + line.len(),
            kept: s.kept + 1,
            ..s
        };
    }
    State {
        lines: number + 1,
        long: 0,
        ..s
    }
}

// What is held after one byte more.
fn take_byte(s: State, b: u8, room: &mut [u8], marks: &mut [u8]) -> State
    requires { (Held s room.old marks.old) × (s.lines < 9223372036854775808) }
    ensures { Took (b ∷ []) s room.old marks.old result room.new marks.new }
{
    let start = s.end;
    let long = hold(&mut room[..], start, s.long, b);
    if b != b'\n' {
        return State { long, ..s };
    }
    let end = start + long;
    if s.lines == 0 {
        return first_line(&room[..end]);
    }
    later_line(s, &room[start..end], marks)
}

// What is held after a piece of a text more, however the text is parted.
pub fn feed(s: State, piece: &[u8], room: &mut [u8], marks: &mut [u8]) -> State
    requires { (Held s room.old marks.old) × (s.lines + length piece.now < 9223372036854775808) }
    ensures { Took piece.now s room.old marks.old result room.new marks.new }
{
    let mut now = s;
    for b in piece {
        now = take_byte(now, *b, &mut room[..], &mut marks[..]);
    }
    now
}

// Clears the marks, where nothing was read yet.
pub fn start(marks: &mut [u8]) -> State
    ensures { (result ≡ start_state) × (marks.new ≡ repeated 0 (length marks.old)) }
{
    marks.fill(0);
    State {
        lines: 0,
        long: 0,
        end: 0,
        kept: 0,
        good: false,
        m: 0,
        n: 0,
    }
}
