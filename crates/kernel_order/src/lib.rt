// What a saved state's lines are looked at for: whether a line has an end and an order. (Where each task stands: crate
// kernel_marks.) The test of a saved state (crate kernel_sound) calls these. Each function is total, and no table of 32
// goes into a call inside a loop over 32.
#![tactic(auto)]

ghost use Rattle.std.specs.Prelude.{◌≡◌};
ghost use Rattle.kernel_line.specs.Tables.{zeros};
ghost use Rattle.kernel_order.specs.Order.{ended, falls, rises};

use kernel_line::{TaskID, level};

// Behind a free place all are free. No exit before the end: so the compiler tests sixteen places at a time.
pub fn is_ended(line: &[u8; 32]) -> bool
    ensures { result ≡ ended line.now }
{
    let mut ends = true;
    for i in 0..31 {
        ends &= (line[i] != 0) | (line[i + 1] == 0);
    }
    ends
}

// All places are free: of a table, or of any bytes. All of them are looked at, found or not: without a way out of the
// loop LLVM looks at many at a time.
pub fn is_free(cells: &[u8]) -> bool
    ensures { result ≡ zeros cells.now }
{
    let mut free = true;
    for x in cells {
        free &= *x == 0;
    }
    free
}

// Tasks by active priority, none above 15.
pub fn is_falling<'a>(
    line: &'a [u8; 32],
    base: &'a [u8; 32],
    ceiling: [u8; 8],
    held: &'a [u8; 32],
) -> bool
    ensures { result ≡ falls base.now ceiling held.now 15 line.now }
{
    let mut last = 15;
    for &x in line {
        if x == 0 {
            return true;
        }
        if 32 <= x {
            return false;
        }
        let level = level(base, ceiling, held, TaskID(x));
        if last < level {
            return false;
        }
        last = level;
    }
    true
}

// Tasks by time.
pub fn is_rising<'a>(line: &'a [u8; 32], until: &'a [u64; 32]) -> bool
    ensures { result ≡ rises until.now 0 line.now }
{
    let mut last = 0;
    for &x in line {
        if x == 0 {
            return true;
        }
        if 32 <= x {
            return false;
        }
        let time = until[usize::from(x)];
        if time < last {
            return false;
        }
        last = time;
    }
    true
}
