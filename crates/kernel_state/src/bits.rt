// Pending exceptions as bits of one number.
ghost use Rattle.std.specs.Prelude.{◌≡◌, ◌<◌, ◌^◌};
ghost use Rattle.rules_exceptions.specs.Exceptions.{has, cleared, pending_sound};
ghost use Rattle.kernel_state.specs.Settle.{set_for};

use kernel_line::{TaskID, of_task};

// The number with bit t alone.
fn bit(t: u8) -> u32
    requires { t < 32 }
    ensures { result ≡ 2 ^ t }
{
    1u32 << t
}

// Whether task t has one pending. What is no task has none.
pub(crate) fn has(pending: u32, t: u8) -> bool
    ensures { result ≡ has pending t }
{
    if 31 < t {
        return false;
    }
    (pending >> t) % 2 == 1
}

// One more, for task t. For nobody, and for what is no task, none is set; and one that is pending stays as it is.
pub(crate) fn set_for(pending: u32, t: u8) -> u32
    ensures { result ≡ set_for pending t }
{
    if 31 < t {
        return pending;
    }
    if (t == 0) | has(pending, t) {
        return pending;
    }
    pending + bit(t)
}

// That of task t is pending no more.
pub(crate) fn cleared(pending: u32, t: u8) -> u32
    ensures { result ≡ cleared pending t }
{
    if !has(pending, t) {
        return pending;
    }
    pending - bit(t)
}

// Whether what is pending is sound: of created tasks 1..31 alone, and none before Start. Mostly there is none, and
// nothing to look at.
pub fn pending_sound(base: &[u8; 32], started: bool, pending: u32) -> bool
    ensures { result ≡ pending_sound started base.now pending }
{
    if pending == 0 {
        return true;
    }
    let mut fit = true;
    for t in 0..32 {
        let set_up = started & (t != 0) & (of_task(base, TaskID(t)) != 0);
        fit = (!has(pending, t) | set_up) & fit;
    }
    fit
}
