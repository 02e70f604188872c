// The calls for C hosts: a chip simulator lends 512 bytes, and steps the machine that they hold.
//
// Crate image_work does what each call does; image_calls/specs/Calls says what it answers and leaves. Bytes of every
// length, whatever they hold, get an answer: no exported function has a `requires`.
#![tactic(auto)]

ghost use Rattle.std.specs.Prelude.{◌≡◌};
ghost use Rattle.image_calls.specs.Calls.{told, step_answer, step_image, fresh_answer, fresh_image, left_answer};
ghost use Rattle.image_calls.specs.Calls.{draw_answer, draw_seed, draw_value, draw_step_answer, draw_step_image};
ghost use Rattle.image_calls.specs.Calls.{draw_even_answer, draw_even_seed, draw_even_value};

// Steps the machine of an image: the answer is code + 256 * running + 65536 * released, + 16777216 where it shows an
// exception. A refusal leaves every byte.
#[unsafe(no_mangle)]
pub extern "C" fn rvn_step(image: &mut [u8], op: u64, a: u64, b: u64, value: u64) -> u32
    ensures { (result ≡ step_answer image.old (told op a b value))
        × (image.new ≡ step_image image.old (told op a b value)) }
{
    image_work::step(image, op, a, b, value)
}

// Writes the fresh machine, whatever the bytes held: 0, or 1 for a wrong length.
#[unsafe(no_mangle)]
pub extern "C" fn rvn_fresh(image: &mut [u8]) -> u32
    ensures { (result ≡ fresh_answer image.old) × (image.new ≡ fresh_image image.old) }
{
    image_work::fresh(image)
}

// How many more Wakes release the task: the answer is code + 256 * count. It only reads.
#[unsafe(no_mangle)]
pub extern "C" fn rvn_wakes_left(image: &[u8], t: u64) -> u32
    ensures { result ≡ left_answer image.now t }
{
    image_work::wakes_left(image, t)
}

// Draws a command for the machine of an image, which it only reads: the answer is code + 256 * op + 65536 * a +
// 16777216 * b. The seed is advanced where it stands, and the command's value stored. A refusal leaves both.
#[unsafe(no_mangle)]
pub extern "C" fn rvn_draw(
    image: &[u8],
    seed: &mut u32,
    span: u64,
    weights: &[u32],
    value: &mut u64,
) -> u32
    ensures { (result ≡ draw_answer image.now seed.old span weights.now)
        × (seed.new ≡ draw_seed image.now seed.old span weights.now)
        × (value.new ≡ draw_value image.now seed.old span weights.now
        value.old) }
{
    image_work::draw(image, seed, span, weights, value)
}

// Draws a command by even choices (edition 2) for the machine of an image, which it only reads: the answer is what
// rvn_draw's is made of + 4294967296 * the draws spent. The seed is advanced by as many draws where it stands, and the
// command's value stored. A refusal spends none, and leaves both.
#[unsafe(no_mangle)]
pub extern "C" fn rvn_draw_even(
    image: &[u8],
    seed: &mut u32,
    span: u64,
    weights: &[u32],
    value: &mut u64,
) -> u64
    ensures { (result ≡ draw_even_answer image.now seed.old span weights.now)
        × (seed.new ≡ draw_even_seed image.now seed.old span weights.now)
        × (value.new ≡ draw_even_value image.now seed.old span weights.now
        value.old) }
{
    image_work::draw_even(image, seed, span, weights, value)
}

// Draws a command for the machine of an image and carries it out: rvn_draw, then rvn_step of what is drawn, the state
// tested once. The answer is that of rvn_draw + 4294967296 * that of rvn_step. A refused draw answers its code alone,
// and leaves image, seed and value.
#[unsafe(no_mangle)]
pub extern "C" fn rvn_draw_step(
    image: &mut [u8],
    seed: &mut u32,
    span: u64,
    weights: &[u32],
    value: &mut u64,
) -> u64
    ensures { (result ≡ draw_step_answer image.old seed.old span weights.now)
        × (image.new ≡ draw_step_image image.old seed.old span weights.now)
        × (seed.new ≡ draw_seed image.old seed.old span weights.now)
        × (value.new ≡ draw_value image.old seed.old span weights.now
        value.old) }
{
    image_work::draw_step(image, seed, span, weights, value)
}
