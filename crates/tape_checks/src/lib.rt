// The checks of the tape's writer, in their order.
#![tactic(auto)]

ghost use Rattle.std.specs.Prelude.{◌≡◌};
ghost use Rattle.tape_form.specs.Write.{write_code};

use record::{RECORD_BYTES, Record, fault};
use rules::Refusal;

// What the writer refuses of a buffer of n bytes: 15, 17 or 16. (A sum of place and length could wrap; and of a difference
// that stops at 0 the compiler does not see that there is room, so `write_at` would look twice.)
#[tactic(auto, unfolding(tape_form::specs::Write::write_code))]
pub fn write_code(n: usize, at: usize, r: Record) -> Result<(), Refusal>
    ensures { result ≡ write_code n at r }
{
    if at % RECORD_BYTES != 0 {
        return Err(Refusal::Record);
    }
    fault(at, r)?;
    if n < at || n - at < RECORD_BYTES {
        return Err(Refusal::Room);
    }
    Ok(())
}
