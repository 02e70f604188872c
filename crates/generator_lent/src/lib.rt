// Marsaglia's xorshift, and the generator that is lent: a seed that is advanced where it stands, by one draw
// (`advance`), by the three of a command of edition 1 (`three_draws`), or by as many as a choice of edition 2 spends
// (`choose`).
#![tactic(auto)]

ghost use Rattle.std.specs.Prelude.{◌-◌, ◌%◌, ◌≡◌};
ghost use Rattle.generator_draws.specs.Xorshift.{draw};
ghost use Rattle.generator_draws.specs.Below as below;
ghost use Rattle.generator_lent.specs.Lent.{Advances, three_from, told_choice, taken_of, Chooses};

// One draw in 32 bits; bits that are shifted out are lost.
pub fn xorshift(x: u32) -> u32
    ensures { result ≡ draw x }
{
    let y = x ^ (x << 13);
    let z = y ^ (y >> 17);
    z ^ (z << 5)
}

// A seed that is lent, and advanced where it stands.
#[derive(Clone, Copy)]
pub struct Generator {
    pub seed: u32,
}

// One draw: the seed is advanced where it stands, and the number is handed back.
pub fn advance(g: &mut Generator) -> u32
    ensures { Advances g.old result g.new }
{
    let x = xorshift(g.seed);
    g.seed = x;
    x
}

// The three draws of a command.
#[derive(Clone, Copy)]
pub struct Three {
    pub first: u32,
    pub second: u32,
    pub third: u32,
}

// They are made one after another, used or not, by a generator with that seed.
pub fn three_draws(seed: u32) -> Three
    ensures { result ≡ three_from seed }
{
    let mut g = Generator { seed };
    let first = advance(&mut g);
    let second = advance(&mut g);
    let third = advance(&mut g);
    Three {
        first,
        second,
        third,
    }
}

// ---- A number below n, by edition 2

// A choice: the number, the seed left behind, and how many draws it spent.
#[derive(Clone, Copy)]
pub struct Choice {
    pub number: u32,
    pub seed: u32,
    pub spent: u8,
}

// v = draw - 1. (No draw from a seed that is not 0 is 0.)
fn value_of(x: u32) -> u32
    ensures { result ≡ x - 1 }
{
    if x == 0 { 0 } else { x - 1 }
}

// x mod n; by 0 it is x, as in the definitions, so that nothing is asked of n.
fn remainder(x: u32, n: u64) -> u32
    ensures { result ≡ x % n }
{
    if n == 0 { x } else { (x as u64 % n) as u32 }
}

// L, the largest multiple of n not above 4294967295.
fn limit(n: u64) -> u32
    ensures { result ≡ below.limit n }
{
    4294967295 - remainder(4294967295, n)
}

// The choice below n of one draw, which is x.
fn taken(x: u32, n: u64, spent: u8) -> Choice
    ensures { result ≡ taken_of x n spent }
{
    Choice {
        number: remainder(value_of(x), n),
        seed: x,
        spent,
    }
}

// The choice below n from a seed. Where v is below L it is v mod n, otherwise it draws again; the eighth draw always
// gives v mod n.
pub fn choice_from(seed: u32, n: u64) -> Choice
    ensures { result ≡ told_choice (below.even n seed) }
{
    let top = limit(n);
    let mut s = seed;
    let mut spent = 0u8;
    while spent < 7 {
        let x = xorshift(s);
        if value_of(x) < top {
            return taken(x, n, spent + 1);
        }
        s = x;
        spent += 1;
    }
    taken(xorshift(s), n, 8)
}

// A number below n, where one is needed; what is not needed (n = 0) spends one plain draw.
pub fn choice_if_needed(seed: u32, n: u64) -> Choice
    ensures { result ≡ told_choice (below.if_needed below.even n seed) }
{
    if n == 0 {
        Choice {
            number: 0,
            seed: xorshift(seed),
            spent: 1,
        }
    } else {
        choice_from(seed, n)
    }
}

// The same over a generator that is lent: a choice below n, and its seed is advanced where it stands, as often as the
// choice says.
pub fn choose(g: &mut Generator, n: u64) -> Choice
    ensures { Chooses g.old n result g.new }
{
    let c = choice_from(g.seed, n);
    g.seed = c.seed;
    c
}
