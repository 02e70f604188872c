// The program draw, piece by piece of its input.
#![tactic(auto)]

ghost use Rattle.std.specs.Prelude.{◌-◌, ◌≤◌, ◌≡◌, length};
ghost use Rattle.kernel.specs.declared.Kernel.{Kernel};
ghost use Rattle.decimal.specs.Buffer.{InFront, contents_after, place_after};
ghost use Rattle.session_stage.specs.Stage as stage;
ghost use Rattle.session_draw.specs.Draw as program;
ghost use Rattle.kernel.specs.Step.{tables};
ghost use Rattle.text.specs.Lines.{held_bytes};
ghost use Rattle.text.specs.Printed.{draw_room};

use generator::in_place::draw_and_step;
use generator::{Drawn, Profile};
use kernel::Kernel;
use session::{carry_out, following, row_of};
use session_stage::{
    Course, DRAWING, DrawRun, FIRST_LINE, Note, SETTING_UP, end, not_moved, opened, set_up,
};
use text::{Held, Row, Spoken};
use text_print::{put_draw_header, put_draw_line};
use text_split::{held_command, held_first_line, held_none, next_line};

// A run that reads its input: with what is held of a line that has begun.
#[derive(Clone, Copy)]
pub struct Reader {
    pub run: DrawRun,
    pub held: Held,
}

// The reader behind a piece of input, and the run behind its end or some draws; and how many bytes were printed.
#[derive(Clone, Copy)]
pub struct Read {
    pub reader: Reader,
    pub at: usize,
}

#[derive(Clone, Copy)]
pub struct Printed {
    pub run: DrawRun,
    pub at: usize,
}

pub fn begin() -> Reader
    ensures { result ≡ program.at_first }
{
    let profile = Profile {
        span: 0,
        weights: [0u32; 8],
    };
    let d = DrawRun {
        stage: FIRST_LINE,
        kernel: Kernel::fresh(),
        n: 0,
        seed: 0,
        profile,
        left: 0,
    };
    Reader {
        run: d,
        held: held_none(),
    }
}

// The course of a run; and a run of its parts.
fn course_of(d: DrawRun) -> Course
    ensures { stage.as_run d.kernel result ≡ d }
{
    let profile = d.profile;
    Course {
        stage: d.stage,
        n: d.n,
        seed: d.seed,
        profile,
        left: d.left,
    }
}

fn run_of(kernel: Kernel, c: Course) -> DrawRun
    ensures { result ≡ stage.as_run kernel c }
{
    let profile = c.profile;
    DrawRun {
        stage: c.stage,
        kernel,
        n: c.n,
        seed: c.seed,
        profile,
        left: c.left,
    }
}

// A line, whatever the stage: a setup line is carried out where the tables lie.
fn take_line(
    base: &mut [u8; 32],
    ready: &mut [u8; 32],
    delayed: &mut [u8; 32],
    held: &mut [u8; 32],
    way: &mut [u8; 32],
    until: &mut [u64; 32],
    ceiling: &mut [u8; 8],
    waiter: &mut [u8; 8],
    clock: &mut u64,
    started: &mut bool,
    c: Course,
    line: Held,
) -> Note
    ensures { stage.as_moved (tables base.new ready.new delayed.new
        held.new way.new until.new ceiling.new waiter.new
        clock.new started.new) result ≡ stage.moved (stage.as_run (tables base.old
        ready.old delayed.old held.old way.old until.old
        ceiling.old waiter.old clock.old started.old) c)
        (held_bytes line) }
{
    if c.stage == FIRST_LINE {
        return opened(c, held_first_line(line));
    }
    if c.stage != SETTING_UP {
        return not_moved(c);
    }
    let n = following(c.n);
    let spoken = held_command(line);
    let row = carry_out(
        base, ready, delayed, held, way, until, ceiling, waiter, clock, started, n, spoken,
    );
    set_up(c, n, row)
}

// What is drawn, as a line would say it.
fn spoken(x: Drawn) -> Spoken
    ensures { result ≡ program.spoken x }
{
    let c = x.command;
    Spoken {
        code: x.code,
        op: c.op,
        a: c.a,
        b: c.b,
        value: c.value,
    }
}

fn put_shown(out: &mut [u8], at: usize, shown: bool, row: Row) -> usize
    ensures { (result ≡ place_after draw_room out.old at (program.shown_text shown row))
        × (out.new ≡ contents_after draw_room out.old at (program.shown_text shown row)) }
{
    if shown {
        return put_draw_line(out, at, row);
    }
    at
}

pub fn header(out: &mut [u8]) -> usize
    ensures { (result ≡ program.headed out.old) × (out.new ≡ program.headed_out out.old)
        × InFront result out.new }
{
    put_draw_header(out, 0)
}

// For so many lines, 2^56, no buffer has room; and the bytes of fewer fit 64 bits.
const MANY: usize = 72057594037927936;

// What stands behind the lines of a piece, beside the tables: the course, what is kept of a line that has begun, and
// how many bytes were printed.
#[derive(Clone, Copy)]
struct Through {
    course: Course,
    kept: Held,
    at: usize,
}

// The lines that end in a piece. Where out has no room for a line for each byte of the piece and one more, nothing is
// done.
fn take_lines(
    base: &mut [u8; 32],
    ready: &mut [u8; 32],
    delayed: &mut [u8; 32],
    held: &mut [u8; 32],
    way: &mut [u8; 32],
    until: &mut [u64; 32],
    ceiling: &mut [u8; 8],
    waiter: &mut [u8; 8],
    clock: &mut u64,
    started: &mut bool,
    mut course: Course,
    mut kept: Held,
    piece: &[u8],
    out: &mut [u8],
) -> Through
    ensures { program.Feeds (program.as_reader (tables base.old ready.old
        delayed.old held.old way.old until.old ceiling.old
        waiter.old clock.old started.old) course kept) piece.now
        out.old (program.as_read (tables base.new ready.new delayed.new
        held.new way.new until.new ceiling.new waiter.new
        clock.new started.new) result) out.new }
{
    let mut at = 0;
    if MANY <= piece.len() {
        return Through { course, kept, at };
    }
    if out.len() < 192 * (piece.len() + 1) {
        return Through { course, kept, at };
    }
    let mut from = 0;
    let mut left = piece.len() + 1;
    while left > 0 {
        let cut = next_line(kept, piece, from);
        kept = cut.held;
        if !cut.whole {
            return Through { course, kept, at };
        }
        let h = take_line(
            base, ready, delayed, held, way, until, ceiling, waiter, clock, started, course, kept,
        );
        course = h.course;
        at = put_shown(out, at, h.shown, h.row);
        kept = held_none();
        from = cut.next;
        left -= 1;
    }
    Through { course, kept, at }
}

impl Through {
    // The reader behind a piece, from its parts.
    fn behind(self, kernel: Kernel) -> Read
        ensures { result ≡ program.as_read kernel self }
    {
        let held = self.kept;
        let d = run_of(kernel, self.course);
        Read {
            reader: Reader { run: d, held },
            at: self.at,
        }
    }
}

// A piece of input. Where out has no room for a line for each byte of the piece and one more, nothing is done.
pub fn feed(r: Reader, piece: &[u8], out: &mut [u8]) -> Read
    ensures { (result ≡ program.fed r piece.now out.old)
        × (out.new ≡ program.fed_out r piece.now out.old)
        × InFront result.at out.new }
{
    let mut base = r.run.kernel.base;
    let mut ready = r.run.kernel.ready;
    let mut delayed = r.run.kernel.delayed;
    let mut held = r.run.kernel.held;
    let mut way = r.run.kernel.way;
    let mut until = r.run.kernel.until;
    let mut ceiling = r.run.kernel.ceiling;
    let mut waiter = r.run.kernel.waiter;
    let mut clock = r.run.kernel.clock;
    let mut started = r.run.kernel.started;
    let t = take_lines(
        &mut base,
        &mut ready,
        &mut delayed,
        &mut held,
        &mut way,
        &mut until,
        &mut ceiling,
        &mut waiter,
        &mut clock,
        &mut started,
        course_of(r.run),
        r.held,
        piece,
        out,
    );
    t.behind(Kernel {
        base,
        ready,
        delayed,
        held,
        way,
        until,
        ceiling,
        waiter,
        clock,
        started,
    })
}

// A last line without a line end counts if it has a byte: its line end is fed.
fn last_line(r: Reader, out: &mut [u8]) -> Read
    requires { 384 ≤ length out.old }
    ensures { (result.reader.run ≡ (program.last_moved r).run)
        × (result.at ≡ place_after draw_room out.old 0 (program.text_of (program.last_moved r)))
        × (out.new ≡ contents_after draw_room out.old 0 (program.text_of (program.last_moved r))) }
{
    let held = r.held;
    if held.count == 0 {
        return Read { reader: r, at: 0 };
    }
    feed(r, b"\n", out)
}

// The end of the input: at most two lines.
pub fn finish(r: Reader, out: &mut [u8]) -> Printed
    ensures { (result ≡ program.finished r out.old)
        × (out.new ≡ program.finished_out r out.old) × InFront result.at out.new }
{
    if out.len() < 384 {
        let d = r.run;
        return Printed { run: d, at: 0 };
    }
    let last = last_line(r, out);
    let reader = last.reader;
    let d = reader.run;
    let e = end(course_of(d));
    let at = put_shown(out, last.at, e.shown, e.row);
    let k = d.kernel;
    Printed {
        run: run_of(k, e.course),
        at,
    }
}

// The course behind a draw.
fn past(c: Course, n: u64, seed: u32) -> Course
    requires { 1 ≤ c.left }
    ensures { result ≡ record {
      stage = stage.drawing;
      n = n;
      seed = seed;
      profile = c.profile;
      left = c.left - 1;
    } }
{
    let profile = c.profile;
    Course {
        stage: DRAWING,
        n,
        seed,
        profile,
        left: c.left - 1,
    }
}

// What stands behind some draws, beside the tables.
#[derive(Clone, Copy)]
struct Lot {
    course: Course,
    at: usize,
}

fn printed_of(kernel: Kernel, t: Lot) -> Printed
    ensures { result ≡ program.as_printed kernel t }
{
    Printed {
        run: run_of(kernel, t.course),
        at: t.at,
    }
}

// Some draws, each with its step where the tables lie. Where out has no room for a line for each, nothing is done.
fn draw_through(
    base: &mut [u8; 32],
    ready: &mut [u8; 32],
    delayed: &mut [u8; 32],
    held: &mut [u8; 32],
    way: &mut [u8; 32],
    until: &mut [u64; 32],
    ceiling: &mut [u8; 8],
    waiter: &mut [u8; 8],
    clock: &mut u64,
    started: &mut bool,
    mut course: Course,
    most: usize,
    out: &mut [u8],
) -> Lot
    ensures { program.DrawsSome (stage.as_run (tables base.old ready.old
        delayed.old held.old way.old until.old ceiling.old
        waiter.old clock.old started.old) course) most out.old
        (program.as_printed (tables base.new ready.new delayed.new held.new
        way.new until.new ceiling.new waiter.new clock.new
        started.new) result) out.new }
{
    let mut at = 0;
    if MANY <= most {
        return Lot { course, at };
    }
    if out.len() < 192 * most {
        return Lot { course, at };
    }
    let mut turns = most;
    while turns > 0 {
        if (course.stage != DRAWING) | (course.left == 0) {
            return Lot { course, at };
        }
        let x = draw_and_step(
            base,
            ready,
            delayed,
            held,
            way,
            until,
            ceiling,
            waiter,
            clock,
            started,
            course.seed,
            course.profile,
        );
        let drawn = x.drawn;
        let n = following(course.n);
        at = put_draw_line(out, at, row_of(n, spoken(drawn), x.answer, *clock));
        course = past(course, n, drawn.seed);
        turns -= 1;
    }
    Lot { course, at }
}

// Some draws. Where out has no room for a line for each, nothing is done.
pub fn draw_some(d: DrawRun, most: usize, out: &mut [u8]) -> Printed
    ensures { (result ≡ program.some_drawn d most out.old)
        × (out.new ≡ program.some_drawn_out d most out.old) × InFront result.at out.new }
{
    let mut base = d.kernel.base;
    let mut ready = d.kernel.ready;
    let mut delayed = d.kernel.delayed;
    let mut held = d.kernel.held;
    let mut way = d.kernel.way;
    let mut until = d.kernel.until;
    let mut ceiling = d.kernel.ceiling;
    let mut waiter = d.kernel.waiter;
    let mut clock = d.kernel.clock;
    let mut started = d.kernel.started;
    let t = draw_through(
        &mut base,
        &mut ready,
        &mut delayed,
        &mut held,
        &mut way,
        &mut until,
        &mut ceiling,
        &mut waiter,
        &mut clock,
        &mut started,
        course_of(d),
        most,
        out,
    );
    let kernel = Kernel {
        base,
        ready,
        delayed,
        held,
        way,
        until,
        ceiling,
        waiter,
        clock,
        started,
    };
    printed_of(kernel, t)
}
