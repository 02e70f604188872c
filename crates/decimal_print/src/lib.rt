// Unsigned decimals without needless zeros, printed into a buffer.
#![tactic(auto)]

ghost use Rattle.std.specs.Prelude.{◌≡◌, ◌+◌, ◌*◌, ◌^◌, ◌≤◌, ◌<◌, length};
ghost use Rattle.std.proofs.lemmas.List.Edits.{sets};
ghost use Rattle.decimal.specs.Decimal.{decimal};
ghost use Rattle.decimal.specs.Buffer.{contents_after, place_after};
ghost use Rattle.decimal_print.specs.Method.{width_in, last_digits, powers_of_ten};

// The powers of ten that 64 bits hold, from 10^0 on: no digit is found by a division. The table is lent to loops, where
// each use by name would make it anew. An entry by name and number, as POWERS[1], is a number to the compiler.
const POWERS: [u64; 20] = [
    1,
    10,
    100,
    1000,
    10000,
    100000,
    1000000,
    10000000,
    100000000,
    1000000000,
    10000000000,
    100000000000,
    1000000000000,
    10000000000000,
    100000000000000,
    1000000000000000,
    10000000000000000,
    100000000000000000,
    1000000000000000000,
    10000000000000000000,
];

// How many digits n has: one more for each power of ten that it reaches, from 10 on.
fn width(n: u64, powers: &[u64]) -> usize
    requires { powers.now ≡ powers_of_ten }
    ensures { (result ≡ width_in 20 n) × (result ≤ 20) × (n < 10 ^ result) }
{
    let mut k = 1;
    while k < 20 && powers[k] <= n {
        k += 1;
    }
    k
}

// How often a power of ten was taken off a number, and what is left of it.
#[derive(Drop)]
struct Count {
    digit: u8,
    rest: u64,
}

// Until the power does not fit any more. For the first digits: a processor foretells where the loop ends if the digit
// is the one that it was in the last numbers.
fn counted(n: u64, power: u64) -> Count
    requires { n < 10 * power }
    ensures { (n ≡ result.digit * power + result.rest) × (result.rest < power) × (result.digit < 10) }
{
    let mut rest = n;
    let mut digit = 0;
    while power <= rest {
        rest -= power;
        digit += 1;
    }
    Count { digit, rest }
}

// Nine turns, whatever the digit. For the last digits, which change from number to number: there is no end to foretell,
// and the compiler makes no branch of the test.
fn counted_evenly(n: u64, power: u64) -> Count
    requires { n < 10 * power }
    ensures { (n ≡ result.digit * power + result.rest) × (result.rest < power) × (result.digit < 10) }
{
    let mut rest = n;
    let mut digit = 0;
    let mut turns = 0u8;
    while turns < 9 {
        if power <= rest {
            rest -= power;
            digit += 1;
        }
        turns += 1;
    }
    Count { digit, rest }
}

// The last two digits, and the last three. What is left of the tens is its own digit.
fn put_two(out: &mut [u8], at: usize, n: u64)
    requires { (at + 2 ≤ length out.old) × (n < 100) }
    ensures { out.new ≡ sets out.old at (last_digits 2 n) }
{
    let c = counted_evenly(n, POWERS[1]);
    out[at] = 48 + c.digit;
    out[at + 1] = 48 + c.rest as u8;
}

fn put_three(out: &mut [u8], at: usize, n: u64)
    requires { (at + 3 ≤ length out.old) × (n < 1000) }
    ensures { out.new ≡ sets out.old at (last_digits 3 n) }
{
    let c = counted_evenly(n, POWERS[2]);
    out[at] = 48 + c.digit;
    put_two(out, at + 1, c.rest);
}

// The k digits of n, from the first to the last.
fn put_digits(out: &mut [u8], at: usize, k: usize, n: u64, powers: &[u64])
    requires { (powers.now ≡ powers_of_ten) × (at + k ≤ length out.old) × (3 ≤ k) × (k ≤ 20) × (n < 10 ^ k) }
    ensures { out.new ≡ sets out.old at (last_digits k n) }
{
    let mut rest = n;
    let mut left = k;
    let mut place = at;
    while 3 < left {
        left -= 1;
        let c = counted(rest, powers[left]);
        out[place] = 48 + c.digit;
        rest = c.rest;
        place += 1;
    }
    put_three(out, place, rest);
}

// A decimal where there is room for it, and the next place. Most numbers have one digit or two; for up to three no
// table is made.
fn put_number(out: &mut [u8], at: usize, n: u64) -> usize
    requires { at + 20 ≤ length out.old }
    ensures { (result ≡ at + length (decimal n)) × (out.new ≡ sets out.old at (decimal n)) }
{
    if n < 10 {
        out[at] = 48 + n as u8;
        return at + 1;
    }
    if n < 100 {
        put_two(out, at, n);
        return at + 2;
    }
    if n < 1000 {
        put_three(out, at, n);
        return at + 3;
    }
    let powers = POWERS;
    let k = width(n, &powers);
    put_digits(out, at, k, n, &powers);
    at + k
}

// A decimal put at a place where at least 20 bytes are left, and the next place; else nothing, and the same place.
pub fn put_decimal(out: &mut [u8], at: usize, n: u64) -> usize
    ensures { (result ≡ place_after 20 out.old at (decimal n))
        × (out.new ≡ contents_after 20 out.old at (decimal n)) }
{
    if out.len() < 20 {
        return at;
    }
    if out.len() - 20 < at {
        return at;
    }
    put_number(out, at, n)
}
