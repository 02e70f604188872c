// A task is placed in a line: at a place, or by its time. (What a line is, and what placing is: crate kernel_line.)
#![tactic(auto)]

ghost use Rattle.std.specs.Prelude.{◌≡◌};
ghost use Rattle.kernel_line.specs.Tables.{lead, insert, place, later};

use kernel_line::TaskID;

// Whether an entry is a place for the time v: one with a time after v, or a free one.
fn is_later(until: &[u64; 32], v: u64, x: u8) -> bool
    ensures { result ≡ later until.now v x }
{
    x == 0 || 32 <= x || v < until[usize::from(x)]
}

// How many stand before the first with a time after v.
pub fn front_time(line: &[u8; 32], until: &[u64; 32], v: u64) -> usize
    ensures { result ≡ lead (later until.now v) line.now }
{
    for (i, &x) in line.iter().enumerate() {
        if is_later(until, v, x) {
            return i;
        }
    }
    32
}

// t at a place of the line; what stood there and behind it moves back.
pub fn put_at(line: &mut [u8; 32], at: usize, t: TaskID)
    ensures { line.new ≡ insert at t.0 line.old }
{
    if at < 32 {
        line.copy_within(at..31, at + 1);
        line[at] = t.0;
    }
}

// t by its time, behind those of an equal one.
pub fn put_time(line: &mut [u8; 32], until: &[u64; 32], v: u64, t: TaskID)
    ensures { line.new ≡ place (later until.now v) t.0 line.old }
{
    let i = front_time(line, until, v);
    put_at(line, i, t);
}
