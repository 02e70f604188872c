// A command drawn by even choices (edition 2), on lent tables, and such a draw with its step there. What refuses a
// draw, the menu, the weights and the operands are those of crate generator; so is the order of the checks.
#![tactic(auto)]

ghost use Rattle.std.specs.Prelude.{◌≡◌};
ghost use Rattle.kernel.specs.Step.{tables};
ghost use Rattle.generator_evenly.specs.Public.{refused_of, made_of, drawn_of, DrawsAndSteps};

use generator::Profile;
use generator::in_place::code_of;
use generator_menu::{Made, make_evenly};
use kernel::{Answer, Command};

// The answer of a draw, with the draws that it spent: 3 to 24. A refused one has op 0, zero operands and the same seed,
// and spends none.
#[derive(Clone, Copy)]
pub struct Drawn {
    pub code: u8,
    pub command: Command,
    pub seed: u32,
    pub spent: u8,
}

// A draw and its step: what is drawn, and what the kernel answers to it.
#[derive(Clone, Copy)]
pub struct Carried {
    pub drawn: Drawn,
    pub answer: Answer,
}

fn refused(code: u8, seed: u32) -> Drawn
    ensures { result ≡ refused_of code seed }
{
    Drawn {
        code,
        command: Command {
            op: 0,
            a: 0,
            b: 0,
            value: 0,
        },
        seed,
        spent: 0,
    }
}

fn made(d: Made) -> Drawn
    ensures { result ≡ made_of d }
{
    let command = d.command;
    Drawn {
        code: 0,
        command,
        seed: d.seed,
        spent: d.spent,
    }
}

// A command is drawn by even choices; no draw is made where it is refused.
pub fn draw<'a>(
    base: &'a [u8; 32],
    ready: &'a [u8; 32],
    delayed: &'a [u8; 32],
    held: &'a [u8; 32],
    way: &'a [u8; 32],
    until: &'a [u64; 32],
    ceiling: [u8; 8],
    waiter: [u8; 8],
    clock: u64,
    started: bool,
    seed: u32,
    p: Profile,
) -> Drawn
    ensures { result ≡ drawn_of (tables
        base.now ready.now delayed.now held.now way.now
        until.now ceiling waiter clock started) seed p }
{
    let code = code_of(
        base, ready, delayed, held, way, until, ceiling, waiter, clock, started, seed, p,
    );
    if code != 0 {
        return refused(code, seed);
    }
    let weights = p.weights;
    let d = make_evenly(
        base, ready, held, way, ceiling, waiter, clock, p.span, weights, seed,
    );
    made(d)
}

// A command is drawn and carried out. A draw that is made comes from a sound state, so its step need not test the state
// again. A refused one leaves every table as it is.
pub fn draw_and_step(
    base: &mut [u8; 32],
    ready: &mut [u8; 32],
    delayed: &mut [u8; 32],
    held: &mut [u8; 32],
    way: &mut [u8; 32],
    until: &mut [u64; 32],
    ceiling: &mut [u8; 8],
    waiter: &mut [u8; 8],
    clock: &mut u64,
    started: &mut bool,
    seed: u32,
    p: Profile,
) -> Carried
    ensures { DrawsAndSteps
        (tables
        base.old ready.old delayed.old held.old way.old
        until.old ceiling.old waiter.old clock.old
        started.old)
        seed p result
        (tables
        base.new ready.new delayed.new held.new way.new
        until.new ceiling.new waiter.new clock.new started.new) }
{
    let tops = *ceiling;
    let waits = *waiter;
    let drawn = draw(
        base, ready, delayed, held, way, until, tops, waits, *clock, *started, seed, p,
    );
    if drawn.code != 0 {
        let running = kernel_ready::running(*started, ready);
        let answer = generator::in_place::unmoved(drawn.code, running.0);
        return Carried { drawn, answer };
    }
    let c = drawn.command;
    let answer = kernel::on_tables::step_trusting(
        base, ready, delayed, held, way, until, ceiling, waiter, clock, started, c,
    );
    Carried { drawn, answer }
}
