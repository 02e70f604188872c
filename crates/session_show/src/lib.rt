// The program show, piece by piece of its input. (What it prints: crate show_text.)
#![tactic(auto)]

ghost use Rattle.std.specs.Prelude.{◌≡◌};
ghost use Rattle.kernel_ready.specs.Ready.{running_in};
ghost use Rattle.kernel.specs.Public.{answer_of, to_rules};
ghost use Rattle.session.specs.CarriedOut.{row_of, asked};
ghost use Rattle.decimal.specs.Buffer.{InFront};
ghost use Rattle.show_text.specs.Show as show;
ghost use Rattle.session_show.specs.Carried.{carried, wanted_text, Puts};

use kernel::{Command, TaskID};
use kernel_state::{Answer, State};
use queue::Queue;
use session::{following, row_of};
use show_print::put_entry;
pub use show_text::{Fed, Showing};
use text::{Held, Row, Spoken};
use text_split::{held_command, held_none, next_command};

pub fn begin() -> Showing
    ensures { result ≡ show.at_first }
{
    Showing {
        state: State::fresh(),
        queue: queue::none(),
        held: held_none(),
        n: 0,
    }
}

// ---- a line

// What is told of a line: its row, the state and the queue behind it, and whether its answer shows an exception.
#[derive(Clone, Copy)]
struct Done {
    row: Row,
    state: State,
    queue: Queue,
    exception: bool,
}

// What of an answer stands in the row.
fn plain(a: Answer) -> kernel::Answer
    ensures { result ≡ show.plain a }
{
    let running = a.running;
    let released = a.released;
    kernel::Answer {
        code: a.code,
        running,
        released,
    }
}

// A line that says no command changes nothing.
fn unmoved(started: bool, ready: &[u8; 32], clock: u64, n: u64, s: Spoken) -> Row
    ensures { result ≡ row_of n s (answer_of s.code (running_in started ready.now) 0) clock }
{
    let running = kernel_ready::running(started, ready);
    let answer = kernel::Answer {
        code: s.code,
        running,
        released: TaskID(0),
    };
    row_of(n, s, answer, clock)
}

fn command_of(s: Spoken) -> Command
    ensures { to_rules result ≡ asked s }
{
    Command {
        op: s.op,
        a: s.a,
        b: s.b,
        value: s.value,
    }
}

// A line that says a command is a step of both models; one that says none changes nothing.
fn carry_out(s: State, q: Queue, n: u64, l: Spoken) -> Done
    ensures { result ≡ carried s q n l }
{
    let k = s.kernel;
    if l.code != 0 {
        let ready = k.ready;
        let row = unmoved(k.started, &ready, k.clock, n, l);
        return Done {
            row,
            state: s,
            queue: q,
            exception: false,
        };
    }
    let c = command_of(l);
    let m = queue_beside::step(s, q, c);
    let state = m.next;
    let queue = m.queue;
    let answer = m.answer;
    let behind = state.kernel;
    let row = row_of(n, l, plain(answer), behind.clock);
    Done {
        row,
        state,
        queue,
        exception: answer.exception,
    }
}

// The entry of a line, if it is one that is asked for: its row, and the block of the state and the queue behind it.
fn put_wanted(out: &mut [u8], at: usize, only: u64, done: Done) -> usize
    ensures { Puts out.old at (wanted_text only done) result out.new }
{
    let row = done.row;
    if (only != 0) & (row.n != only) {
        return at;
    }
    let state = done.state;
    let queue = done.queue;
    put_entry(
        out,
        at,
        row,
        state.kernel,
        state.pending,
        queue,
        done.exception,
    )
}

// ---- a piece

// Where the show stands behind a piece, from its parts.
fn stood(state: State, queue: Queue, held: Held, n: u64, at: usize) -> Fed
    ensures { result ≡ show.stood (show.standing state queue held n) at }
{
    let showing = Showing {
        state,
        queue,
        held,
        n,
    };
    Fed { showing, at }
}

// A piece of input: the lines that end in it, each carried out. Where out has no room for an entry for each byte of the
// piece and one more, nothing is done. (The state goes from line to line by value: what is printed of it is longer.)
pub fn feed(w: Showing, only: u64, piece: &[u8], out: &mut [u8]) -> Fed
    ensures { show.Feeds only w piece.now out.old result out.new }
{
    let mut at = 0;
    if out.len() >> 12 <= piece.len() {
        return Fed { showing: w, at };
    }
    let mut state = w.state;
    let mut queue = w.queue;
    let mut kept = w.held;
    let mut n = w.n;
    let mut from = 0;
    let mut turns = piece.len() + 1;
    while turns > 0 {
        let c = next_command(kept, piece, from);
        kept = c.held;
        if !c.whole {
            return stood(state, queue, kept, n, at);
        }
        n = following(n);
        let done = carry_out(state, queue, n, c.spoken);
        at = put_wanted(out, at, only, done);
        state = done.state;
        queue = done.queue;
        from = c.next;
        turns -= 1;
    }
    stood(state, queue, kept, n, at)
}

// A last line without a line end counts if it has a byte.
pub fn finish(w: Showing, only: u64, out: &mut [u8]) -> usize
    ensures { (result ≡ show.finished only w out.old)
        × (out.new ≡ show.finished_out only w out.old) × InFront result out.new }
{
    let begun = w.held;
    if begun.count == 0 {
        return 0;
    }
    let n = following(w.n);
    let spoken = held_command(begun);
    let done = carry_out(w.state, w.queue, n, spoken);
    put_wanted(out, 0, only, done)
}

// ---- how far it has come

// How many lines there were in all, with a last one that has no line end.
pub fn lines_seen(w: Showing) -> u64
    ensures { result ≡ show.lines_seen w }
{
    let begun = w.held;
    if begun.count == 0 {
        return w.n;
    }
    following(w.n)
}

// More is to be read: all lines are asked for, or the one that is has not come yet.
pub fn wants(only: u64, w: Showing) -> bool
    ensures { result ≡ show.wants only w }
{
    (only == 0) | (w.n < only)
}
