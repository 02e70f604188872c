// Reading and writing, for every program: what came of it, and how it is told where it failed. Nothing else reads an
// input or writes an output.
#![tactic(auto)]

ghost use Rattle.std.specs.Prelude.{◌≤◌, ◌≡◌, is_ok, IfOk, length};
ghost use Rattle.std.specs.Io.{ReadsAtMost};
ghost use Rattle.programs_flow.specs.Flow as flow;

mod pieces;
mod reason;

use crate::reason::put_reason;
pub use pieces::{Program, over_pieces};
use std::io;
use std::io::{Error, ErrorKind, Print, Read, Write};

// How the work stands.
#[derive(Clone, Copy, PartialEq, Eq)]
pub enum State {
    GoesOn,
    // a read gave nothing
    Ended,
    ReadFailed,
    WriteFailed,
}

// How the work stands, how many bytes the last read brought, and how many bytes all writes took so far. All three are
// private: only this crate gives them. So no program can say that its input has ended where no read gave nothing, that
// a read brought less than it did, or that a text was written which was not.
#[derive(Clone, Copy)]
pub struct Went {
    state: State,
    count: usize,
    sent: usize,
}

impl Went {
    // Nothing was read or written yet.
    pub fn going() -> Went
        ensures { result ≡ flow.nothing_yet }
    {
        Went {
            state: State::GoesOn,
            count: 0,
            sent: 0,
        }
    }

    pub fn goes_on(self) -> bool
        ensures { result ≡ flow.goes_on self.state }
    {
        self.state == State::GoesOn
    }

    pub fn has_failed(self) -> bool
        ensures { result ≡ flow.has_failed self.state }
    {
        matches!(self.state, State::ReadFailed | State::WriteFailed)
    }

    // A read gave nothing, and nothing failed: all was read.
    pub fn has_ended(self) -> bool
        ensures { result ≡ flow.has_ended self.state }
    {
        self.state == State::Ended
    }

    // How many bytes the last read brought.
    pub fn brought(self) -> usize
        ensures { result ≡ self.count }
    {
        self.count
    }

    // What a program answers: 0, or 3 where a read or a write failed.
    pub fn status(self) -> u8
        ensures { result ≡ flow.status_of self.state }
    {
        if self.has_failed() { 3 } else { 0 }
    }
}

// One line on standard error: which file, what could not be done with it, and the system's reason. Where standard
// error takes none of it, nothing more can be done.
fn complain<E: Print>(errors: &E, why: Error, name: &[u8], what: &[u8]) {
    let mut text = [0u8; 256];
    let n = put_reason(&mut text, &why);
    let _ = errors.write_all(name);
    let _ = errors.write_all(what);
    let _ = errors.write_all(b": ");
    let _ = errors.write_all(&text[..n]);
    let _ = errors.write_all(b"\n");
}

// A status, and why.
// Kept (promise): a status is its number, as the clauses of each program's `run` and of rvn_program_* have it.
pub fn told<E: Print>(errors: &E, why: Error, status: u8, name: &[u8], what: &[u8]) -> u8
    ensures { result ≡ status }
{
    complain(errors, why, name, what);
    status
}

// A status, and why, where nothing of the system failed: a line as it stands.
pub fn refused<E: Print>(errors: &E, status: u8, line: &[u8]) -> u8
    ensures { result ≡ status }
{
    let _ = errors.write_all(line);
    status
}

// What was to be read is not there, or cannot be used.
pub fn not_read<E: Print>(w: Went, errors: &E, why: Error, name: &[u8], what: &[u8]) -> Went
    ensures { result ≡ flow.unread w }
{
    complain(errors, why, name, what);
    Went {
        state: State::ReadFailed,
        count: 0,
        sent: w.sent,
    }
}

// What was to be written or kept is not.
pub fn not_written<E: Print>(w: Went, errors: &E, why: Error, name: &[u8], what: &[u8]) -> Went
    ensures { result ≡ flow.unwritten w }
{
    complain(errors, why, name, what);
    Went {
        state: State::WriteFailed,
        ..w
    }
}

// The work stands as it stood where something was done with a file; else it is not, as it is said.
#[tactic(auto, unfolding(crate::specs::Flow::where_done))]
pub fn checked<E: Print>(
    w: Went,
    errors: &E,
    done: io::Result<()>,
    name: &[u8],
    what: &[u8],
) -> Went
    ensures { result ≡ flow.where_done (is_ok done) w }
{
    match done {
        Ok(()) => w,
        Err(why) => not_written(w, errors, why, name, what),
    }
}

// One read. A call that a signal ended is made again; nothing says that signals end, so the calls are counted.
fn read_once<R: Read>(from: &mut R, piece: &mut [u8]) -> io::Result<usize>
    ensures { ReadsAtMost result piece.new }
{
    for _ in 0..u64::MAX {
        match from.read(piece) {
            Err(why) if why.kind() == ErrorKind::Interrupted => {}
            done => return done,
        }
    }
    Err(Error::from(ErrorKind::Interrupted))
}

// One read into piece, of a file that has this name where it is complained of.
pub fn read_from<R: Read, E: Print>(
    w: Went,
    from: &mut R,
    errors: &E,
    name: &[u8],
    piece: &mut [u8],
) -> Went
    ensures { flow.Came w result piece.new }
{
    match read_once(from, piece) {
        Err(why) => not_read(w, errors, why, name, b" could not be read"),
        Ok(0) => Went {
            state: State::Ended,
            count: 0,
            sent: w.sent,
        },
        Ok(count) => Went {
            state: State::GoesOn,
            count,
            sent: w.sent,
        },
    }
}

// One read of the input.
pub fn read_piece<R: Read, E: Print>(w: Went, from: &mut R, errors: &E, piece: &mut [u8]) -> Went
    ensures { flow.Came w result piece.new }
{
    read_from(w, from, errors, b"the input", piece)
}

// All of out, in as many writes as it takes: how many bytes were taken, which are all, or why a write failed. One that
// takes nothing has failed, too.
fn write_all<W: Write>(to: &mut W, out: &[u8]) -> io::Result<usize>
    ensures { IfOk result (λ n. n ≡ length out.now) }
{
    let mut at = 0;
    for _ in 0..u64::MAX {
        if at == out.len() {
            return Ok(at);
        }
        match to.write(&out[at..]) {
            Ok(0) => return Err(Error::from(ErrorKind::WriteZero)),
            Ok(count) => at += count,
            Err(why) if why.kind() == ErrorKind::Interrupted => {}
            Err(why) => return Err(why),
        }
    }
    Err(Error::from(ErrorKind::Interrupted))
}

// All of out, to a file that has this name where it is complained of: it is all taken, or the write has failed. What
// the last read brought is kept. Where no number holds the total that is a failure, too; no run gets there.
pub fn write_to<W: Write, E: Print>(
    w: Went,
    to: &mut W,
    errors: &E,
    name: &[u8],
    out: &[u8],
) -> Went
    ensures { flow.Wrote (length out.now) w result }
{
    match write_all(to, out) {
        Err(why) => not_written(w, errors, why, name, b" could not be written"),
        Ok(count) => match w.sent.checked_add(count) {
            Some(sent) => Went { sent, ..w },
            None => {
                let why = Error::from(ErrorKind::FileTooLarge);
                not_written(w, errors, why, name, b" could not be counted")
            }
        },
    }
}

// All of out, to standard output.
pub fn write_whole<W: Write, E: Print>(w: Went, output: &mut W, errors: &E, out: &[u8]) -> Went
    ensures { flow.Wrote (length out.now) w result }
{
    write_to(w, output, errors, b"the output", out)
}
