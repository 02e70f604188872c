// Commands drawn by Marsaglia's xorshift that the kernel accepts.
//
// A command is drawn from tables that are lent, and may be carried out there: in_place. By value there is `draw`. The
// numbers come from a `Generator` that is lent (crate generator_lent), the command from the menu (generator_menu).
// Every state, seed and profile gets an answer: no public function has a `requires`. specs/ says what each answer is.
#![tactic(auto)]

ghost use Rattle.std.specs.Prelude.{◌≡◌};
ghost use Rattle.generator.specs.Public.{drawn_of, refused_of};

use kernel::{Answer, Command, Kernel};

pub mod in_place;

pub use generator_lent::{Generator, advance, xorshift};

// A span and eight weights, in op order 4..11: delay, wake, advance, open, closep, closef, entry, done.
#[derive(Clone, Copy)]
pub struct Profile {
    pub span: u32,
    pub weights: [u32; 8],
}

// The answer of a draw. A refused one has op 0, zero operands and the same seed.
#[derive(Clone, Copy)]
pub struct Drawn {
    pub code: u8,
    pub command: Command,
    pub seed: u32,
}

// A draw and its step: what is drawn, and what the kernel answers to it.
#[derive(Clone, Copy)]
pub struct Carried {
    pub drawn: Drawn,
    pub answer: Answer,
}

fn refused(code: u8, seed: u32) -> Drawn
    ensures { result ≡ refused_of code seed }
{
    Drawn {
        code,
        command: Command {
            op: 0,
            a: 0,
            b: 0,
            value: 0,
        },
        seed,
    }
}

// A state, a seed and a profile in; code, command and the next seed out.
pub fn draw(k: Kernel, seed: u32, p: Profile) -> Drawn
    ensures { result ≡ drawn_of k seed p }
{
    in_place::draw(
        &k.base, &k.ready, &k.delayed, &k.held, &k.way, &k.until, k.ceiling, k.waiter, k.clock,
        k.started, seed, p,
    )
}
