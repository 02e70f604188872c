// The program walk, piece by piece of its input. (What it prints: crate session_walk_text.)
#![tactic(auto)]

ghost use Rattle.std.specs.Prelude.{◌≡◌};
ghost use Rattle.kernel.specs.Step.{tables};
ghost use Rattle.decimal.specs.Buffer.{InFront};
ghost use Rattle.session_walk_text.specs.Walk as walk;

use kernel::Kernel;
use session::{carry_out, following};
pub use session_walk_text::{Fed, Walk};
use text::Held;
use text_print::{put_walk_header, put_walk_line};
use text_split::{held_command, held_none, next_command};

pub fn begin() -> Walk
    ensures { result ≡ walk.at_first }
{
    Walk {
        kernel: Kernel::fresh(),
        held: held_none(),
        n: 0,
    }
}

pub fn header(out: &mut [u8]) -> usize
    ensures { (result ≡ walk.headed out.old) × (out.new ≡ walk.headed_out out.old)
        × InFront result out.new }
{
    put_walk_header(out, 0)
}

// What stands behind a piece, beside the tables: what is kept of a line that has begun, how many lines there were,
// and how many bytes were printed.
#[derive(Clone, Copy)]
struct Through {
    kept: Held,
    n: u64,
    at: usize,
}

// The lines that end in a piece, each carried out where the tables lie. Where out has no room for a line for each
// byte of the piece and one more, nothing is done.
fn walk_through(
    base: &mut [u8; 32],
    ready: &mut [u8; 32],
    delayed: &mut [u8; 32],
    held: &mut [u8; 32],
    way: &mut [u8; 32],
    until: &mut [u64; 32],
    ceiling: &mut [u8; 8],
    waiter: &mut [u8; 8],
    clock: &mut u64,
    started: &mut bool,
    mut kept: Held,
    mut n: u64,
    piece: &[u8],
    out: &mut [u8],
) -> Through
    ensures { walk.Feeds (walk.standing (tables base.old ready.old
        delayed.old held.old way.old until.old ceiling.old
        waiter.old clock.old started.old) kept n) piece.now
        out.old (walk.stood (walk.standing (tables base.new ready.new
        delayed.new held.new way.new until.new ceiling.new
        waiter.new clock.new started.new) result.kept result.n) result.at)
        out.new }
{
    let mut at = 0;
    if out.len() >> 7 <= piece.len() {
        return Through { kept, n, at };
    }
    let mut from = 0;
    let mut left = piece.len() + 1;
    while left > 0 {
        let c = next_command(kept, piece, from);
        kept = c.held;
        if !c.whole {
            return Through { kept, n, at };
        }
        n = following(n);
        let row = carry_out(
            base, ready, delayed, held, way, until, ceiling, waiter, clock, started, n, c.spoken,
        );
        at = put_walk_line(out, at, row);
        from = c.next;
        left -= 1;
    }
    Through { kept, n, at }
}

impl Through {
    // The walk behind a piece, from its parts.
    fn behind(self, kernel: Kernel) -> Fed
        ensures { result ≡ walk.stood (walk.standing kernel self.kept self.n) self.at }
    {
        let held = self.kept;
        Fed {
            walk: Walk {
                kernel,
                held,
                n: self.n,
            },
            at: self.at,
        }
    }
}

// A piece of input. Where out has no room for a line for each byte of the piece and one more, nothing is done.
pub fn feed(w: Walk, piece: &[u8], out: &mut [u8]) -> Fed
    ensures { (result ≡ walk.fed w piece.now out.old)
        × (out.new ≡ walk.fed_out w piece.now out.old)
        × InFront result.at out.new }
{
    let mut base = w.kernel.base;
    let mut ready = w.kernel.ready;
    let mut delayed = w.kernel.delayed;
    let mut held = w.kernel.held;
    let mut way = w.kernel.way;
    let mut until = w.kernel.until;
    let mut ceiling = w.kernel.ceiling;
    let mut waiter = w.kernel.waiter;
    let mut clock = w.kernel.clock;
    let mut started = w.kernel.started;
    let t = walk_through(
        &mut base,
        &mut ready,
        &mut delayed,
        &mut held,
        &mut way,
        &mut until,
        &mut ceiling,
        &mut waiter,
        &mut clock,
        &mut started,
        w.held,
        w.n,
        piece,
        out,
    );
    t.behind(Kernel {
        base,
        ready,
        delayed,
        held,
        way,
        until,
        ceiling,
        waiter,
        clock,
        started,
    })
}

// A last line without a line end counts if it has a byte.
pub fn finish(w: Walk, out: &mut [u8]) -> usize
    ensures { (result ≡ walk.finished w out.old)
        × (out.new ≡ walk.finished_out w out.old) × InFront result out.new }
{
    let begun = w.held;
    if begun.count == 0 {
        return 0;
    }
    let k = w.kernel;
    let mut base = k.base;
    let mut ready = k.ready;
    let mut delayed = k.delayed;
    let mut held = k.held;
    let mut way = k.way;
    let mut until = k.until;
    let mut ceiling = k.ceiling;
    let mut waiter = k.waiter;
    let mut clock = k.clock;
    let mut started = k.started;
    let n = following(w.n);
    let spoken = held_command(begun);
    let row = carry_out(
        &mut base,
        &mut ready,
        &mut delayed,
        &mut held,
        &mut way,
        &mut until,
        &mut ceiling,
        &mut waiter,
        &mut clock,
        &mut started,
        n,
        spoken,
    );
    put_walk_line(out, 0, row)
}
