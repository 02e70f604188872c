// Words of a line: where one ends, whether two are the same, and the number that one is.
#![tactic(auto)]

ghost use Rattle.std.specs.Prelude.{◌≡◌, drop};
ghost use Rattle.text.specs.Words.{same};
ghost use Rattle.text.specs.Commands.{decimal_next};
ghost use Rattle.text_word.specs.Places.{place_of, Reads};

use decimal_read::number;

// A part of a line: whether it has the form, the number there, and the place behind it.
#[derive(Drop)]
pub struct Operand {
    pub valid: bool,
    pub value: u64,
    pub next: usize,
}

// The first place of the byte `stop` from `at` on, or the end. (Where `at` lies behind the end, it is `at`.)
pub fn find(s: &[u8], at: usize, stop: u8) -> usize
    ensures { result ≡ place_of stop s.now at }
{
    let mut i = at;
    while i < s.len() {
        if s[i] == stop {
            return i;
        }
        i += 1;
    }
    i
}

pub fn same_bytes(a: &[u8], b: &[u8]) -> bool
    ensures { result ≡ same a.now b.now }
{
    if a.len() != b.len() {
        return false;
    }
    let mut i = 0;
    while i < a.len() {
        if a[i] != b[i] {
            return false;
        }
        i += 1;
    }
    true
}

// A blank and a decimal up to `most`, at a place.
pub fn next_decimal(line: &[u8], at: usize, most: u64) -> Operand
    ensures { Reads line.now result (decimal_next most (drop at line.now)) }
{
    if line.len() <= at {
        return Operand {
            valid: false,
            value: 0,
            next: line.len(),
        };
    }
    if line[at] != 32 {
        return Operand {
            valid: false,
            value: 0,
            next: at,
        };
    }
    let from = at + 1;
    let end = find(line, from, 32);
    let r = number(&line[from..end], most);
    Operand {
        valid: r.valid,
        value: r.value,
        next: end,
    }
}
