// The loop over the pieces of the old tape: what is kept of each goes to the new tape, what is dropped is listed.
ghost use Rattle.std.specs.Prelude.{◌+◌, ◌*◌, ◌≤◌, true, ◌≡◌, length, take, drop};
ghost use Rattle.programs_flow.specs.declared.State.TheVariants.{GoesOn};
ghost use Rattle.programs_flow.specs.Flow.{nothing_yet, Came, Took};
ghost use Rattle.programs_flow.specs.Loops.{Put, Looped, Concluded};
ghost use Rattle.decimal.specs.Buffer.{InFront};
ghost use Rattle.salvage_marks.specs.Pieces.{last_of};
ghost use Rattle.salvage_text.specs.Lines.{list_text, last_text, list_room, last_room};
ghost use Rattle.programs_salvage.specs.Work.{before_all, then, both_of, numbers_of, last_line, end_of, Salvaged};
ghost use Rattle.programs_salvage.specs.Turns as turn;

use crate::{Files, Stand};
use decimal_print::put_decimal;
use programs_flow::{Went, not_read, read_from, write_to, write_whole};
use rules::Refusal;
use salvage_print::{put_last, put_list};
use salvaging::{Fed, Torn, at_first, feed, last_stretch, move_down};
use std::fs::File;
use std::io::{Error, ErrorKind, IsTerminal, Print, Write};

// How a turn ends: where the salvage stands, and how the work does.
#[derive(Clone, Copy)]
struct Turn {
    stand: Stand,
    went: Went,
}

// There is room for the lines of every list, and for every last line.
fn put_dropped(text: &mut [u8], cells: &[u64]) -> usize
    requires { list_room cells.now ≤ length text.old }
    ensures { Put result text.new (list_text cells.now) × InFront result text.new }
{
    put_list(text, cells)
}

fn put_counts(text: &mut [u8], records: u64, dropped: u64, headed: bool) -> usize
    requires { last_room ≤ length text.old }
    ensures { Put result text.new (last_text records dropped headed) × InFront result text.new }
{
    put_last(text, records, dropped, headed)
}

// Kept bytes to the new tape, and the lines of a list to standard output.
fn hand_over<W: Write, E: Print>(
    was: Went,
    to: &mut File,
    output: &mut W,
    errors: &E,
    part: &[u8],
    kept: &[u8],
    cells: &[u64],
    text: &mut [u8],
) -> Went
    requires { (was.state ≡ GoesOn) × (list_room cells.now ≤ length text.old) }
    ensures { turn.Handed kept.now (list_text cells.now) was result text.new }
{
    let n = put_dropped(text, cells);
    let went = write_to(was, to, errors, part, kept);
    if went.has_failed() {
        return went;
    }
    write_whole(went, output, errors, &text[..n])
}

// The held bytes and a piece are fed; where they are not refused, what is kept of them is written, and what was dropped
// is listed.
fn carry<W: Write, E: Print>(
    t: Torn,
    was: Went,
    to: &mut File,
    output: &mut W,
    errors: &E,
    part: &[u8],
    bytes: &[u8],
    out: &mut [u8],
    list: &mut [u64],
    text: &mut [u8],
) -> Result<(Fed, Went), Refusal>
    requires { (was.state ≡ GoesOn) × (35 * length list.old ≤ length text.old) }
    ensures { turn.Carried t bytes.now (length out.old) (length list.old) was
        result out.new text.new }
{
    let fed = feed(t, bytes, out, list)?;
    let kept = fed.kept;
    let cells = fed.cells;
    let went = hand_over(
        was,
        to,
        output,
        errors,
        part,
        &out[..kept],
        &list[..cells],
        text,
    );
    Ok((fed, went))
}

// One read behind the held bytes.
fn take_in<E: Print>(
    was: Went,
    from: &mut File,
    errors: &E,
    old: &[u8],
    held: usize,
    buf: &mut [u8],
) -> Went
    requires { held ≤ length buf.old }
    ensures { Came was result (drop held buf.new)
        × (take held buf.new ≡ take held buf.old) }
{
    read_from(was, from, errors, old, &mut buf[held..])
}

// One turn: a piece is read and carried on, and what is held of it goes to the buffer's front.
fn one_piece<W: Write, E: Print>(
    files: &mut Files,
    output: &mut W,
    errors: &E,
    old: &[u8],
    part: &[u8],
    s: Stand,
    was: Went,
    buf: &mut [u8],
    out: &mut [u8],
    list: &mut [u64],
    text: &mut [u8],
) -> Turn
    requires { turn.Sane s × turn.Rooms buf.old out.old list.old text.old }
    ensures { turn.Turned (turn.standing s buf.old) (turn.standing result.stand buf.new) was
        result.went out.new text.new
        × turn.Sane result.stand }
{
    let held = s.held;
    let came = take_in(was, &mut files.old, errors, old, held, buf);
    if !came.goes_on() {
        return Turn {
            stand: s,
            went: came,
        };
    }
    let all = held + came.brought();
    let carried = carry(
        s.torn,
        came,
        &mut files.part,
        output,
        errors,
        part,
        &buf[..all],
        out,
        list,
        text,
    );
    let Ok((fed, went)) = carried else {
        let why = Error::from(ErrorKind::FileTooLarge);
        let went = not_read(came, errors, why, old, b" is too long");
        return Turn { stand: s, went };
    };
    let left = move_down(buf, fed.done, all);
    let torn = fed.torn;
    let kept = s.kept + fed.kept as u64;
    let stand = Stand {
        torn,
        held: left,
        kept,
    };
    Turn { stand, went }
}

// How many bytes lie between two lines of progress.
const STEP: u64 = 100000000;

// Where so many bytes were read, a line on standard error, if that is a terminal; and how many are wanted for the next.
fn progress<E: Print + IsTerminal>(errors: &E, wanted: u64, read: u64) -> u64 {
    if read < wanted {
        return wanted;
    }
    if errors.is_terminal() {
        let mut line = [0u8; 64];
        let n = put_decimal(&mut line, 0, wanted);
        let _ = errors.write_all(&line[..n]);
        let _ = errors.write_all(b" bytes read\n");
    }
    if u64::MAX - STEP < wanted {
        return wanted;
    }
    wanted + STEP
}

// Nothing says that the input ends, so the turns are counted.
fn all_pieces<W: Write, E: Print + IsTerminal>(
    files: &mut Files,
    output: &mut W,
    errors: &E,
    old: &[u8],
    part: &[u8],
    buf: &mut [u8],
    out: &mut [u8],
    list: &mut [u64],
    text: &mut [u8],
) -> Turn
    requires { turn.Rooms buf.old out.old list.old text.old }
    ensures { Looped then both_of (λ _. true) before_all (turn.standing result.stand buf.new) nothing_yet
        result.went
        × turn.Sane result.stand × (result.stand.held ≤ length buf.new) }
{
    let mut turns = 0u64;
    let mut wanted = STEP;
    let mut stand = Stand {
        torn: at_first(),
        held: 0,
        kept: 0,
    };
    let mut went = Went::going();
    while turns < u64::MAX && went.goes_on() {
        let t = one_piece(
            files, output, errors, old, part, stand, went, buf, out, list, text,
        );
        stand = t.stand;
        went = t.went;
        wanted = progress(errors, wanted, stand.torn.place);
        turns += 1;
    }
    Turn { stand, went }
}

// The last stretch's line; where there is no such stretch, none.
fn write_stretch<W: Write, E: Print>(
    output: &mut W,
    errors: &E,
    s: Stand,
    w: Went,
    text: &mut [u8],
) -> Went
    requires { 70 ≤ length text.old }
    ensures { Took (length (list_text (numbers_of (last_of s.torn s.held)))) w.state w result }
{
    let x = last_stretch(s.torn, s.held);
    if x.size == 0 {
        return w;
    }
    let n = put_dropped(text, &[x.first, x.size]);
    write_whole(w, output, errors, &text[..n])
}

fn write_last<W: Write, E: Print>(
    output: &mut W,
    errors: &E,
    s: Stand,
    w: Went,
    text: &mut [u8],
) -> Went
    requires { turn.Sane s × (last_room ≤ length text.old) }
    ensures { Concluded (last_line s.torn s.held s.kept) w result }
{
    if w.has_failed() {
        return w;
    }
    let torn = s.torn;
    let dropped = torn.place + s.held as u64 - s.kept;
    let n = put_counts(text, s.kept >> 4, dropped, torn.headed);
    write_whole(w, output, errors, &text[..n])
}

// What is printed behind the last piece. Where something failed the tape is not known, and nothing is said of it.
fn conclude<W: Write, E: Print>(
    output: &mut W,
    errors: &E,
    s: Stand,
    read: Went,
    text: &mut [u8],
) -> Went
    requires { turn.Sane s × (last_room ≤ length text.old) }
    ensures { Concluded (end_of s.torn s.held s.kept) read result }
{
    if read.has_failed() {
        return read;
    }
    let listed = write_stretch(output, errors, s, read, text);
    write_last(output, errors, s, listed, text)
}

// The whole tape: its kept records are written and what is dropped is listed, or something failed.
pub fn over<W: Write, E: Print + IsTerminal>(
    files: &mut Files,
    output: &mut W,
    errors: &E,
    old: &[u8],
    part: &[u8],
) -> Went
    ensures { Salvaged result }
{
    let mut buf = [0u8; 8192];
    let mut out = [0u8; 8192];
    let mut list = [0u64; 1024];
    let mut text = [0u8; 35840];
    let t = all_pieces(
        files, output, errors, old, part, &mut buf, &mut out, &mut list, &mut text,
    );
    let stand = t.stand;
    let read = t.went;
    conclude(output, errors, stand, read, &mut text)
}
