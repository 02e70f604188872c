// Where each task of a saved state stands: the tasks of a line, or of the objects' waiters, are marked one after the
// other in a table of marks. The test of a saved state (crate kernel_sound) calls these.
#![tactic(auto)]

ghost use Rattle.std.specs.Prelude.{◌≡◌, leb};
ghost use Rattle.kernel_line.specs.Tables.{no_task};
ghost use Rattle.kernel_marks.specs.Marks.{met, marks};

// A task's mark, where the task is met once more: that of the line, or 9 where it stood somewhere before.
fn met(mark: u8, seen: u8) -> u8
    ensures { result ≡ met mark seen }
{
    if seen == 0 { mark } else { 9 }
}

// Where each task stands: the mark of the line or of the objects, on top of what was marked before; 9 for a task that
// stands twice.
pub fn mark_line(line: &[u8; 32], mark: u8, seen: [u8; 32]) -> [u8; 32]
    ensures { result ≡ marks no_task mark line.now seen }
{
    let mut out = seen;
    for &x in line {
        if x == 0 {
            return out;
        }
        if 32 <= x {
            return out;
        }
        let i = usize::from(x);
        out[i] = met(mark, out[i]);
    }
    out
}

pub fn mark_waiting(waiter: [u8; 8], mark: u8, seen: [u8; 32]) -> [u8; 32]
    ensures { result ≡ marks (leb 32) mark waiter seen }
{
    let mut out = seen;
    for &x in waiter.iter() {
        if 32 <= x {
            return out;
        }
        let i = usize::from(x);
        out[i] = if x == 0 { 0 } else { met(mark, out[i]) };
    }
    out
}
