// What many crates want of numbers: the one or the other by a test, and a number of few bits as one of more.
#![tactic(auto)]

ghost use Rattle.std.specs.Prelude.{◌≡◌, cond, ◌<◌};

// Of two numbers that are both at hand, the first where the test is true.
pub fn choose(test: bool, a: u8, b: u8) -> u8
    ensures { result ≡ cond test a b }
{
    if test { a } else { b }
}

// A byte in 32 bits, and in 64; and 32 bits in 64. Each with its bound, so that sums of a few are seen to fit.
pub fn wide32(x: u8) -> u32
    ensures { (result ≡ x) × (result < 256) }
{
    x as u32
}

pub fn wide(x: u8) -> u64
    ensures { (result ≡ x) × (result < 256) }
{
    x as u64
}

pub fn wider(x: u32) -> u64
    ensures { (result ≡ x) × (result < 4294967296) }
{
    x as u64
}
