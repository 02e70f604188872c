// Where a run of the program draw stands, and how a line of its input moves it. Nothing here touches the machine's
// tables.
#![tactic(auto)]

ghost use Rattle.std.specs.Prelude.{◌≡◌};
ghost use Rattle.kernel.specs.declared.Kernel.{Kernel};
ghost use Rattle.session_stage.specs.Stage as stage;

use generator::Profile;
use kernel::Kernel;
use text::{FirstLine, Row};

// The stages of a run of the program draw: at its first line, at its setup lines, at its draws, and over.
pub const FIRST_LINE: u8 = 0;

pub const SETTING_UP: u8 = 1;

pub const DRAWING: u8 = 2;

pub const OVER: u8 = 3;

// Where a run of the program draw stands: its stage; the state; how many lines were printed; the seed; the profile;
// and how many draws are left.
#[derive(Clone, Copy)]
pub struct DrawRun {
    pub stage: u8,
    pub kernel: Kernel,
    pub n: u64,
    pub seed: u32,
    pub profile: Profile,
    pub left: u32,
}

// The same beside the state, which is in tables that are lent.
#[derive(Clone, Copy)]
pub struct Course {
    pub stage: u8,
    pub n: u64,
    pub seed: u32,
    pub profile: Profile,
    pub left: u32,
}

// The course behind a line, and the row that is printed for it, where it is shown.
#[derive(Clone, Copy)]
pub struct Note {
    pub course: Course,
    pub shown: bool,
    pub row: Row,
}

fn zeros(code: u8) -> Row
    ensures { result ≡ stage.zeros code }
{
    Row {
        n: 0,
        op: 0,
        a: 0,
        b: 0,
        value: 0,
        code,
        running: 0,
        released: 0,
        clock: 0,
    }
}

// A line of zeros, and the draw is over.
fn over_with(code: u8, c: Course) -> Note
    ensures { (k : Kernel) → stage.as_moved k result ≡ stage.over_with code (stage.as_run k c) }
{
    let profile = c.profile;
    let over = Course {
        stage: OVER,
        n: c.n,
        seed: c.seed,
        profile,
        left: 0,
    };
    Note {
        course: over,
        shown: true,
        row: zeros(code),
    }
}

pub fn not_moved(c: Course) -> Note
    ensures { (k : Kernel) → stage.as_moved k result ≡ stage.not_moved (stage.as_run k c) }
{
    Note {
        course: c,
        shown: false,
        row: zeros(0),
    }
}

// The first line.
pub fn opened(c: Course, f: FirstLine) -> Note
    ensures { (k : Kernel) → stage.as_moved k result ≡ stage.opened (stage.as_run k c) f }
{
    if f.code != 0 {
        return over_with(f.code, c);
    }
    let weights = f.weights;
    let profile = Profile {
        span: f.span,
        weights,
    };
    let ready = Course {
        stage: SETTING_UP,
        n: c.n,
        seed: f.seed,
        profile,
        left: f.count,
    };
    Note {
        course: ready,
        shown: false,
        row: zeros(0),
    }
}

// A setup line of this number, by the row that is printed for it: an accepted start is the last.
pub fn set_up(c: Course, n: u64, row: Row) -> Note
    ensures { (k : Kernel) → stage.as_moved k result ≡ stage.set_by (stage.as_run k c) n row }
{
    let starts = (row.op == 3) & (row.code == 0);
    let profile = c.profile;
    let next = Course {
        stage: numbers::choose(starts, DRAWING, SETTING_UP),
        n,
        seed: c.seed,
        profile,
        left: c.left,
    };
    Note {
        course: next,
        shown: true,
        row,
    }
}

// The end of the input.
pub fn end(c: Course) -> Note
    ensures { (k : Kernel) → stage.as_moved k result ≡ stage.ended (stage.as_run k c) }
{
    if c.stage == FIRST_LINE {
        return over_with(14, c);
    }
    if c.stage == SETTING_UP {
        return over_with(2, c);
    }
    not_moved(c)
}
