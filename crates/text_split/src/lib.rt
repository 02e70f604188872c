// Lines out of input that comes in pieces: a line that has begun is held until its line end comes.
#![tactic(auto)]

ghost use Rattle.std.specs.Prelude.{◌≡◌, min};
ghost use Rattle.text.specs.Commands.{command_of};
ghost use Rattle.text.specs.FirstLine.{first_line_of};
ghost use Rattle.text.specs.Lines.{keep_most, held_bytes, nothing_held, hold_more, end_from, cut_of, next_command_of};

use text::{Cut, FirstLine, Held, NextCommand, Spoken};
use text_command::{command, no_command};
use text_first::first_line;
use text_word::find;

pub fn held_none() -> Held
    ensures { result ≡ nothing_held }
{
    Held {
        bytes: [0u8; 129],
        count: 0,
    }
}

// No count is above 129, whoever made it.
fn room_taken(count: usize) -> usize
    ensures { result ≡ min keep_most count }
{
    if 129 < count {
        return 129;
    }
    count
}

// A piece more of the line.
pub fn hold(h: Held, piece: &[u8]) -> Held
    ensures { result ≡ hold_more h piece.now }
{
    let mut bytes = h.bytes;
    let mut n = room_taken(h.count);
    let mut i = 0;
    while i < piece.len() && n < 129 {
        bytes[n] = piece[i];
        n += 1;
        i += 1;
    }
    Held { bytes, count: n }
}

// The place of the first line end from a place on, or the end.
pub fn line_end(s: &[u8], at: usize) -> usize
    ensures { result ≡ end_from s.now at }
{
    find(s, at, 10)
}

// The next line of a piece of input, from a place on.
pub fn next_line(h: Held, s: &[u8], at: usize) -> Cut
    ensures { result ≡ cut_of h s.now at }
{
    if s.len() < at {
        let held = hold(h, b"");
        return Cut {
            whole: false,
            held,
            next: at,
        };
    }
    let end = find(s, at, 10);
    let held = hold(h, &s[at..end]);
    if end < s.len() {
        return Cut {
            whole: true,
            held,
            next: end + 1,
        };
    }
    Cut {
        whole: false,
        held,
        next: end,
    }
}

// What the held line says.
pub fn held_command(h: Held) -> Spoken
    ensures { result ≡ command_of (held_bytes h) }
{
    let bytes = h.bytes;
    let n = room_taken(h.count);
    command(&bytes[..n])
}

// What the held line says as draw's first.
pub fn held_first_line(h: Held) -> FirstLine
    ensures { result ≡ first_line_of (held_bytes h) }
{
    let bytes = h.bytes;
    let n = room_taken(h.count);
    first_line(&bytes[..n])
}

// The next command of a piece of input. A line that lies whole in the piece is read where it lies.
pub fn next_command(h: Held, s: &[u8], at: usize) -> NextCommand
    ensures { result ≡ next_command_of h s.now at }
{
    let count = h.count;
    let end = line_end(s, at);
    if count == 0 {
        if end < s.len() {
            let spoken = command(&s[at..end]);
            let held = held_none();
            return NextCommand {
                whole: true,
                spoken,
                held,
                next: end + 1,
            };
        }
    }
    let cut = next_line(h, s, at);
    let kept = cut.held;
    if cut.whole {
        let spoken = held_command(kept);
        let held = held_none();
        return NextCommand {
            whole: true,
            spoken,
            held,
            next: cut.next,
        };
    }
    let spoken = no_command();
    NextCommand {
        whole: false,
        spoken,
        held: kept,
        next: cut.next,
    }
}
