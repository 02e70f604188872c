// What each call from C does (the calls themselves: crate image). A chip simulator lends 512 bytes, and steps the
// machine that they hold.
//
// Crate image_layout has the bytes, crate image_edge what comes in from C and goes out to it; image_calls/specs/Calls
// says what each call answers and leaves. A call reads the image into tables on its stack and works there; an accepted
// one lays them out in the image again. Bytes of every length, whatever they hold, get an answer: no public function
// has a `requires`.
#![tactic(auto)]

ghost use Rattle.std.specs.Prelude.{◌≡◌};
ghost use Rattle.kernel.specs.Public.{to_rules};
ghost use Rattle.kernel.specs.Step.{tables};
ghost use Rattle.generator.specs.Public.{refused_of, unmoved};
ghost use Rattle.image_calls.specs.Calls.{told, step_answer, step_image, fresh_answer, fresh_image, left_answer, draw_on};
ghost use Rattle.image_calls.specs.Calls.{draw_answer, draw_seed, draw_value, draw_step_answer, draw_step_image};
ghost use Rattle.image_calls.specs.Calls.{draw_even_on, draw_even_answer, draw_even_seed, draw_even_value};
ghost use Rattle.generator_evenly.specs.Public as evenly;
ghost use Rattle.image_work.specs.Tables.{step_read, drawn_read, behind_read, done_read, image_read};

use generator::{Carried, Drawn, Profile};
use image_edge::{
    bare, command, keep, leave, pack_both, pack_drawn, pack_even, pack_left, profile, task,
};
use kernel::{Answer, Command, Kernel, TaskID};

// ---- The step

// The answer where no state can be read.
fn no_state() -> Answer
    ensures { result ≡ unmoved 1 0 }
{
    Answer {
        code: 1,
        running: TaskID(0),
        released: TaskID(0),
    }
}

// The step of the machine that the bytes hold, in tables that are lent: they hold the state after it. Bytes of which
// no state can be read are answered 1, 0, 0.
fn step_on(
    image: &[u8],
    base: &mut [u8; 32],
    ready: &mut [u8; 32],
    delayed: &mut [u8; 32],
    held: &mut [u8; 32],
    way: &mut [u8; 32],
    until: &mut [u64; 32],
    ceiling: &mut [u8; 8],
    waiter: &mut [u8; 8],
    clock: &mut u64,
    started: &mut bool,
    c: Command,
) -> Answer
    ensures { (tables base.new ready.new delayed.new held.new
        way.new until.new ceiling.new waiter.new clock.new
        started.new ≡ (step_read image.now
        (tables base.old ready.old delayed.old held.old way.old
        until.old ceiling.old waiter.old clock.old started.old)
        (to_rules c)).next) × (result ≡ (step_read image.now
        (tables base.old ready.old delayed.old held.old way.old
        until.old ceiling.old waiter.old clock.old started.old)
        (to_rules c)).answer) }
{
    if !image_layout::read(
        image, base, ready, delayed, held, way, until, ceiling, waiter, clock, started,
    ) {
        return no_state();
    }
    kernel::on_tables::step(
        base, ready, delayed, held, way, until, ceiling, waiter, clock, started, c,
    )
}

// The same, and what is left of an accepted step is laid out in the image: the answer in one number.
fn step_and_keep(
    image: &mut [u8],
    base: &mut [u8; 32],
    ready: &mut [u8; 32],
    delayed: &mut [u8; 32],
    held: &mut [u8; 32],
    way: &mut [u8; 32],
    until: &mut [u64; 32],
    ceiling: &mut [u8; 8],
    waiter: &mut [u8; 8],
    clock: &mut u64,
    started: &mut bool,
    c: Command,
) -> u32
    ensures { (result ≡ step_answer image.old (to_rules c))
        × (image.new ≡ step_image image.old (to_rules c)) }
{
    let answer = step_on(
        image, base, ready, delayed, held, way, until, ceiling, waiter, clock, started, c,
    );
    keep(
        image, base, ready, delayed, held, way, until, ceiling, waiter, *clock, *started, c, answer,
    )
}

// Steps the machine of an image: the answer is code + 256 * running + 65536 * released, + 16777216 where it shows an
// exception. A refusal leaves every byte.
pub fn step(image: &mut [u8], op: u64, a: u64, b: u64, value: u64) -> u32
    ensures { (result ≡ step_answer image.old (told op a b value))
        × (image.new ≡ step_image image.old (told op a b value)) }
{
    let mut base = [0u8; 32];
    let mut ready = [0u8; 32];
    let mut delayed = [0u8; 32];
    let mut held = [0u8; 32];
    let mut way = [0u8; 32];
    let mut until = [0u64; 32];
    let mut ceiling = [0u8; 8];
    let mut waiter = [0u8; 8];
    let mut clock = 0;
    let mut started = false;
    step_and_keep(
        image,
        &mut base,
        &mut ready,
        &mut delayed,
        &mut held,
        &mut way,
        &mut until,
        &mut ceiling,
        &mut waiter,
        &mut clock,
        &mut started,
        command(op, a, b, value),
    )
}

// Writes the fresh machine, whatever the bytes held: 0, or 1 for a wrong length.
pub fn fresh(image: &mut [u8]) -> u32
    ensures { (result ≡ fresh_answer image.old) × (image.new ≡ fresh_image image.old) }
{
    if image.len() != image_layout::IMAGE_BYTES {
        return 1;
    }
    let none = [0u8; 32];
    let nobody = [0u8; 8];
    image_layout::lay(
        image, &none, &none, &none, &none, &none, &[0; 32], &nobody, &nobody, 0, false, 0,
    );
    0
}

// How many more Wakes release the task: the answer is code + 256 * count. It only reads.
pub fn wakes_left(image: &[u8], t: u64) -> u32
    ensures { result ≡ left_answer image.now t }
{
    let mut base = [0u8; 32];
    let mut ready = [0u8; 32];
    let mut delayed = [0u8; 32];
    let mut held = [0u8; 32];
    let mut way = [0u8; 32];
    let mut until = [0u64; 32];
    let mut ceiling = [0u8; 8];
    let mut waiter = [0u8; 8];
    let mut clock = 0;
    let mut started = false;
    if !image_layout::read(
        image,
        &mut base,
        &mut ready,
        &mut delayed,
        &mut held,
        &mut way,
        &mut until,
        &mut ceiling,
        &mut waiter,
        &mut clock,
        &mut started,
    ) {
        return 1;
    }
    let k = Kernel {
        base,
        ready,
        delayed,
        held,
        way,
        until,
        ceiling,
        waiter,
        clock,
        started,
    };
    pack_left(k.wakes_left(task(t)))
}

// ---- A drawn command

// The answer where there is no image.
fn no_image(seed: u32) -> Drawn
    ensures { result ≡ refused_of 1 seed }
{
    Drawn {
        code: 1,
        command: Command {
            op: 0,
            a: 0,
            b: 0,
            value: 0,
        },
        seed,
    }
}

// The generator's draw over the state that the bytes hold, which is read into tables that are lent.
fn draw_on(
    image: &[u8],
    base: &mut [u8; 32],
    ready: &mut [u8; 32],
    delayed: &mut [u8; 32],
    held: &mut [u8; 32],
    way: &mut [u8; 32],
    until: &mut [u64; 32],
    ceiling: &mut [u8; 8],
    waiter: &mut [u8; 8],
    clock: &mut u64,
    started: &mut bool,
    seed: u32,
    p: Profile,
) -> Drawn
    ensures { result ≡ draw_on image.now seed p }
{
    if !image_layout::read(
        image, base, ready, delayed, held, way, until, ceiling, waiter, clock, started,
    ) {
        return no_image(seed);
    }
    generator::in_place::draw(
        base, ready, delayed, held, way, until, *ceiling, *waiter, *clock, *started, seed, p,
    )
}

// Draws a command for the machine of an image, which it only reads: the answer is code + 256 * op + 65536 * a +
// 16777216 * b. The seed is advanced where it stands, and the command's value stored. A refusal leaves both.
pub fn draw(image: &[u8], seed: &mut u32, span: u64, weights: &[u32], value: &mut u64) -> u32
    ensures { (result ≡ draw_answer image.now seed.old span weights.now)
        × (seed.new ≡ draw_seed image.now seed.old span weights.now)
        × (value.new ≡ draw_value image.now seed.old span weights.now
        value.old) }
{
    let mut base = [0u8; 32];
    let mut ready = [0u8; 32];
    let mut delayed = [0u8; 32];
    let mut held = [0u8; 32];
    let mut way = [0u8; 32];
    let mut until = [0u64; 32];
    let mut ceiling = [0u8; 8];
    let mut waiter = [0u8; 8];
    let mut clock = 0;
    let mut started = false;
    let d = draw_on(
        image,
        &mut base,
        &mut ready,
        &mut delayed,
        &mut held,
        &mut way,
        &mut until,
        &mut ceiling,
        &mut waiter,
        &mut clock,
        &mut started,
        *seed,
        profile(span, weights),
    );
    leave(d, seed, value);
    pack_drawn(d)
}

// ---- A command drawn by even choices

// The answer where there is no image.
fn no_image_even(seed: u32) -> generator_evenly::Drawn
    ensures { result ≡ evenly.refused_of 1 seed }
{
    generator_evenly::Drawn {
        code: 1,
        command: Command {
            op: 0,
            a: 0,
            b: 0,
            value: 0,
        },
        seed,
        spent: 0,
    }
}

// The draw by even choices over the state that the bytes hold, which is read into tables that are lent.
fn draw_even_on(
    image: &[u8],
    base: &mut [u8; 32],
    ready: &mut [u8; 32],
    delayed: &mut [u8; 32],
    held: &mut [u8; 32],
    way: &mut [u8; 32],
    until: &mut [u64; 32],
    ceiling: &mut [u8; 8],
    waiter: &mut [u8; 8],
    clock: &mut u64,
    started: &mut bool,
    seed: u32,
    p: Profile,
) -> generator_evenly::Drawn
    ensures { result ≡ draw_even_on image.now seed p }
{
    if !image_layout::read(
        image, base, ready, delayed, held, way, until, ceiling, waiter, clock, started,
    ) {
        return no_image_even(seed);
    }
    generator_evenly::draw(
        base, ready, delayed, held, way, until, *ceiling, *waiter, *clock, *started, seed, p,
    )
}

// Draws a command by even choices (edition 2) for the machine of an image, which it only reads: the answer is what
// draw's is made of + 4294967296 * the draws spent. The seed is advanced by as many draws where it stands, and the
// command's value stored. A refusal spends none, and leaves both.
pub fn draw_even(image: &[u8], seed: &mut u32, span: u64, weights: &[u32], value: &mut u64) -> u64
    ensures { (result ≡ draw_even_answer image.now seed.old span weights.now)
        × (seed.new ≡ draw_even_seed image.now seed.old span weights.now)
        × (value.new ≡ draw_even_value image.now seed.old span weights.now
        value.old) }
{
    let mut base = [0u8; 32];
    let mut ready = [0u8; 32];
    let mut delayed = [0u8; 32];
    let mut held = [0u8; 32];
    let mut way = [0u8; 32];
    let mut until = [0u64; 32];
    let mut ceiling = [0u8; 8];
    let mut waiter = [0u8; 8];
    let mut clock = 0;
    let mut started = false;
    let d = draw_even_on(
        image,
        &mut base,
        &mut ready,
        &mut delayed,
        &mut held,
        &mut way,
        &mut until,
        &mut ceiling,
        &mut waiter,
        &mut clock,
        &mut started,
        *seed,
        profile(span, weights),
    );
    leave(bare(d), seed, value);
    pack_even(d)
}

// ---- A drawn command, carried out

// The draw of the machine that the bytes hold, and its step, in tables that are lent: they hold the state after it.
// The state is tested once.
fn draw_step_on(
    image: &[u8],
    base: &mut [u8; 32],
    ready: &mut [u8; 32],
    delayed: &mut [u8; 32],
    held: &mut [u8; 32],
    way: &mut [u8; 32],
    until: &mut [u64; 32],
    ceiling: &mut [u8; 8],
    waiter: &mut [u8; 8],
    clock: &mut u64,
    started: &mut bool,
    seed: u32,
    p: Profile,
) -> Carried
    ensures { (tables base.new ready.new delayed.new held.new
        way.new until.new ceiling.new waiter.new clock.new
        started.new ≡ behind_read image.now
        (tables base.old ready.old delayed.old held.old way.old
        until.old ceiling.old waiter.old clock.old started.old)
        seed p) × (result ≡ drawn_read image.now seed p) }
{
    if !image_layout::read(
        image, base, ready, delayed, held, way, until, ceiling, waiter, clock, started,
    ) {
        let drawn = no_image(seed);
        let answer = no_state();
        return Carried { drawn, answer };
    }
    generator::in_place::draw_and_step(
        base, ready, delayed, held, way, until, ceiling, waiter, clock, started, seed, p,
    )
}

// What is drawn, and the answer to it in one number.
#[derive(Clone, Copy)]
struct Done {
    drawn: Drawn,
    told: u32,
}

// The same, and what is left of a draw that is made is laid out in the image.
fn draw_and_keep(
    image: &mut [u8],
    base: &mut [u8; 32],
    ready: &mut [u8; 32],
    delayed: &mut [u8; 32],
    held: &mut [u8; 32],
    way: &mut [u8; 32],
    until: &mut [u64; 32],
    ceiling: &mut [u8; 8],
    waiter: &mut [u8; 8],
    clock: &mut u64,
    started: &mut bool,
    seed: u32,
    p: Profile,
) -> Done
    ensures { (result ≡ done_read image.old seed p)
        × (image.new ≡ image_read image.old
        (tables base.old ready.old delayed.old held.old way.old
        until.old ceiling.old waiter.old clock.old started.old)
        seed p) }
{
    let carried = draw_step_on(
        image, base, ready, delayed, held, way, until, ceiling, waiter, clock, started, seed, p,
    );
    let drawn = carried.drawn;
    let c = drawn.command;
    let answer = carried.answer;
    let told = keep(
        image, base, ready, delayed, held, way, until, ceiling, waiter, *clock, *started, c, answer,
    );
    Done { drawn, told }
}

// Draws a command for the machine of an image and carries it out: draw, then step of what is drawn, the state
// tested once. The answer is that of draw + 4294967296 * that of step. A refused draw answers its code alone,
// and leaves image, seed and value.
pub fn draw_step(
    image: &mut [u8],
    seed: &mut u32,
    span: u64,
    weights: &[u32],
    value: &mut u64,
) -> u64
    ensures { (result ≡ draw_step_answer image.old seed.old span weights.now)
        × (image.new ≡ draw_step_image image.old seed.old span weights.now)
        × (seed.new ≡ draw_seed image.old seed.old span weights.now)
        × (value.new ≡ draw_value image.old seed.old span weights.now
        value.old) }
{
    let mut base = [0u8; 32];
    let mut ready = [0u8; 32];
    let mut delayed = [0u8; 32];
    let mut held = [0u8; 32];
    let mut way = [0u8; 32];
    let mut until = [0u64; 32];
    let mut ceiling = [0u8; 8];
    let mut waiter = [0u8; 8];
    let mut clock = 0;
    let mut started = false;
    let done = draw_and_keep(
        image,
        &mut base,
        &mut ready,
        &mut delayed,
        &mut held,
        &mut way,
        &mut until,
        &mut ceiling,
        &mut waiter,
        &mut clock,
        &mut started,
        *seed,
        profile(span, weights),
    );
    let drawn = done.drawn;
    leave(drawn, seed, value);
    pack_both(drawn, done.told)
}
