// Between C and the model: what comes in as numbers of any size, and what goes out, in one number and in what was
// lent.
//
// image_calls/specs/Calls and specs/Edge say what each function answers and leaves. No public function has a
// `requires`.
#![tactic(auto)]

ghost use Rattle.std.specs.Prelude.{◌≡◌};
ghost use Rattle.kernel.specs.Public.{to_rules};
ghost use Rattle.kernel.specs.Step.{tables};
ghost use Rattle.image_calls.specs.Calls.{told, fitted, fitted_task, packed, packed_left, fitted_profile, packed_drawn};
ghost use Rattle.image_calls.specs.Calls.{value_left, packed_even};
ghost use Rattle.generator_evenly.specs.Public as evenly;
ghost use Rattle.image_edge.specs.Edge.{shown, told_in, image_left, seed_left, packed_both};

use generator::{Drawn, Profile};
use kernel::{Answer, Command, Left, TaskID};
use numbers::{wide32, wider};
use record_kept::Kept;

// ---- What comes in

// The command that four numbers say. One above 255 fits no byte and is never cut: such a command is refused with 4, as
// op 0 is.
pub fn command(op: u64, a: u64, b: u64, value: u64) -> Command
    ensures { to_rules result ≡ fitted (told op a b value) }
{
    let none = Command {
        op: 0,
        a: 0,
        b: 0,
        value: 0,
    };
    if 255 < op {
        return none;
    }
    if 255 < a {
        return none;
    }
    if 255 < b {
        return none;
    }
    Command {
        op: op as u8,
        a: a as u8,
        b: b as u8,
        value,
    }
}

// The task of that number: one above 255 is out of range, as 0 is.
pub fn task(t: u64) -> TaskID
    ensures { result.0 ≡ fitted_task t }
{
    if 255 < t {
        return TaskID(0);
    }
    TaskID(t as u8)
}

// The profile that a span and weights say. One that fits no 32 bits, or other than eight weights, is refused with 18,
// as span 0 is.
pub fn profile(span: u64, weights: &[u32]) -> Profile
    ensures { result ≡ fitted_profile span weights.now }
{
    let none = Profile {
        span: 0,
        weights: [0; 8],
    };
    if 4294967295 < span {
        return none;
    }
    if weights.len() != 8 {
        return none;
    }
    Profile {
        span: span as u32,
        weights: [
            weights[0], weights[1], weights[2], weights[3], weights[4], weights[5], weights[6],
            weights[7],
        ],
    }
}

// ---- Answers in one number

// An answer in one number: what a record keeps of it, and 16777216 more where it shows an exception.
fn pack(a: Answer, exception: bool) -> u32
    ensures { result ≡ packed (shown a exception) }
{
    let kept = Kept::from(a).pack();
    if exception {
        return kept + 16777216;
    }
    kept
}

// "Wakes left": code + 256 * the count.
pub fn pack_left(l: Left) -> u32
    ensures { result ≡ packed_left l }
{
    wide32(l.code) + 256 * wide32(l.left)
}

// A draw: code + 256 * op + 65536 * a + 16777216 * b.
pub fn pack_drawn(d: Drawn) -> u32
    ensures { result ≡ packed_drawn d }
{
    let c = d.command;
    wide32(d.code) + 256 * wide32(c.op) + 65536 * wide32(c.a) + 16777216 * wide32(c.b)
}

// The answers of a draw and of its step in one number: the draw's + 4294967296 * the step's. Of a refused draw it is
// the draw's alone.
pub fn pack_both(d: Drawn, step: u32) -> u64
    ensures { result ≡ packed_both d step }
{
    let drawn = wider(pack_drawn(d));
    let code = d.code;
    if code != 0 {
        return drawn;
    }
    drawn + 4294967296 * wider(step)
}

// What a draw by even choices tells, without the draws that it spent: as a draw of edition 1 tells it.
pub fn bare(d: generator_evenly::Drawn) -> Drawn
    ensures { result ≡ evenly.bare d }
{
    let command = d.command;
    Drawn {
        code: d.code,
        command,
        seed: d.seed,
    }
}

// A draw by even choices: as one of edition 1, + 4294967296 * the draws that it spent.
pub fn pack_even(d: generator_evenly::Drawn) -> u64
    ensures { result ≡ packed_even d }
{
    wider(pack_drawn(bare(d))) + 4294967296 * wider(wide32(d.spent))
}

// ---- What is left in what was lent

// What a draw leaves: its seed and its command's value. A refused one leaves both as they were.
pub fn leave(d: Drawn, seed: &mut u32, value: &mut u64)
    ensures { (seed.new ≡ seed_left d seed.old)
        × (value.new ≡ value_left d value.old) }
{
    if d.code != 0 {
        return;
    }
    *seed = d.seed;
    *value = d.command.value;
}

// The answer to a command in one number, with the exception that it shows. An accepted command's tables are laid out in
// the image, with what is pending then; a refusal leaves every byte.
pub fn keep(
    image: &mut [u8],
    base: &[u8; 32],
    ready: &[u8; 32],
    delayed: &[u8; 32],
    held: &[u8; 32],
    way: &[u8; 32],
    until: &[u64; 32],
    ceiling: &[u8; 8],
    waiter: &[u8; 8],
    clock: u64,
    started: bool,
    c: Command,
    answer: Answer,
) -> u32
    ensures { (result ≡ told_in image.old (to_rules c) answer)
        × (image.new ≡ image_left image.old
        (tables base.now ready.now delayed.now held.now way.now
        until.now ceiling.now waiter.now clock started) (to_rules c) answer) }
{
    let s = image_layout::settled(image, c, answer);
    let r = pack(answer, s.exception);
    if answer.code != 0 {
        return r;
    }
    image_layout::lay(
        image, base, ready, delayed, held, way, until, ceiling, waiter, clock, started, s.pending,
    );
    r
}
