// A draw on lent tables, and a draw with its step there: the state is tested once for both.
ghost use Rattle.std.specs.Prelude.{◌≡◌};
ghost use Rattle.kernel.specs.Step.{tables};
ghost use Rattle.generator.specs.Public as public;

use crate::{Carried, Drawn, Profile, refused};
use generator_lent::three_draws;
use generator_menu::pick_command;
use kernel::{Answer, TaskID};

// The number of a draw's first check that holds, in document 01's order 1, 17, 18, 2; 0 for none.
pub fn code_of<'a>(
    base: &'a [u8; 32],
    ready: &'a [u8; 32],
    delayed: &'a [u8; 32],
    held: &'a [u8; 32],
    way: &'a [u8; 32],
    until: &'a [u64; 32],
    ceiling: [u8; 8],
    waiter: [u8; 8],
    clock: u64,
    started: bool,
    seed: u32,
    p: Profile,
) -> u8
    ensures { result ≡ public.code_of (tables
        base.now ready.now delayed.now held.now way.now
        until.now ceiling waiter clock started) seed p }
{
    let weights = p.weights;
    let code = generator_checks::refusal(started, seed, p.span, weights);
    let sound = kernel::on_tables::sound(
        base, ready, delayed, held, way, until, ceiling, waiter, clock, started,
    );
    numbers::choose(!sound, 1, code)
}

// The answer of a draw that is made: the command that its three draws choose, and the third as the seed.
fn made(
    base: &[u8; 32],
    ready: &[u8; 32],
    held: &[u8; 32],
    way: &[u8; 32],
    ceiling: [u8; 8],
    waiter: [u8; 8],
    clock: u64,
    seed: u32,
    p: Profile,
) -> Drawn
    ensures { result ≡ public.made_in
        base.now ready.now held.now way.now
        ceiling waiter clock seed p }
{
    let weights = p.weights;
    let d = three_draws(seed);
    let command = pick_command(
        base, ready, held, way, ceiling, waiter, clock, p.span, weights, d.first, d.second, d.third,
    );
    Drawn {
        code: 0,
        command,
        seed: d.third,
    }
}

// A command is drawn. Three draws are made for it, used or not; none, where it is refused.
pub fn draw<'a>(
    base: &'a [u8; 32],
    ready: &'a [u8; 32],
    delayed: &'a [u8; 32],
    held: &'a [u8; 32],
    way: &'a [u8; 32],
    until: &'a [u64; 32],
    ceiling: [u8; 8],
    waiter: [u8; 8],
    clock: u64,
    started: bool,
    seed: u32,
    p: Profile,
) -> Drawn
    ensures { result ≡ public.drawn_of (tables
        base.now ready.now delayed.now held.now way.now
        until.now ceiling waiter clock started) seed p }
{
    let code = code_of(
        base, ready, delayed, held, way, until, ceiling, waiter, clock, started, seed, p,
    );
    if code != 0 {
        return refused(code, seed);
    }
    made(base, ready, held, way, ceiling, waiter, clock, seed, p)
}

// The answer to a refused draw: its code, who runs, and nobody released.
pub fn unmoved(code: u8, running: u8) -> Answer
    ensures { result ≡ public.unmoved code running }
{
    Answer {
        code,
        running: TaskID(running),
        released: TaskID(0),
    }
}

// A command is drawn and carried out. A draw that is made comes from a sound state, so its step need not test the state
// again. A refused one leaves every table as it is.
pub fn draw_and_step(
    base: &mut [u8; 32],
    ready: &mut [u8; 32],
    delayed: &mut [u8; 32],
    held: &mut [u8; 32],
    way: &mut [u8; 32],
    until: &mut [u64; 32],
    ceiling: &mut [u8; 8],
    waiter: &mut [u8; 8],
    clock: &mut u64,
    started: &mut bool,
    seed: u32,
    p: Profile,
) -> Carried
    ensures { public.DrawsAndSteps
        (tables
        base.old ready.old delayed.old held.old way.old
        until.old ceiling.old waiter.old clock.old
        started.old)
        seed p result
        (tables
        base.new ready.new delayed.new held.new way.new
        until.new ceiling.new waiter.new clock.new started.new) }
{
    let tops = *ceiling;
    let waits = *waiter;
    let drawn = draw(
        base, ready, delayed, held, way, until, tops, waits, *clock, *started, seed, p,
    );
    if drawn.code != 0 {
        let running = kernel_ready::running(*started, ready);
        let answer = unmoved(drawn.code, running.0);
        return Carried { drawn, answer };
    }
    let c = drawn.command;
    let answer = kernel::on_tables::step_trusting(
        base, ready, delayed, held, way, until, ceiling, waiter, clock, started, c,
    );
    Carried { drawn, answer }
}
