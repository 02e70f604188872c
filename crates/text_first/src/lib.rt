// Seed text, and the first line of draw.
#![tactic(auto)]

ghost use Rattle.std.specs.Prelude.{◌≡◌, ◌≤◌, length, drop};
ghost use Rattle.text_word.specs.Places.{Reads};
ghost use Rattle.text_first.specs.Eight.{ReadsEight};
ghost use Rattle.text.specs.FirstLine.{word_most, seed_of, text_next, decimals_next, settings_of};
ghost use Rattle.text.specs.FirstLine.{judged, refused_with, first_line_of};

use decimal_read::number;
use generator_checks::is_good;
use numbers::choose;
use text::{FirstLine, SeedText, Settings};
use text_word::{Operand, find, next_decimal, same_bytes};

// Eight decimals: whether they have the form, what they are, and the place behind them.
#[derive(Clone, Copy)]
struct Eight {
    valid: bool,
    values: [u32; 8],
    next: usize,
}

// Seed text: 1..4294967295, without sign or needless zeros.
pub fn seed_text(word: &[u8]) -> SeedText
    ensures { result ≡ seed_of word.now }
{
    let r = number(word, 4294967295);
    let value = r.value;
    if r.valid & (1 <= value) {
        return SeedText {
            code: 0,
            seed: value as u32,
        };
    }
    SeedText { code: 17, seed: 0 }
}

// A text at a place, and the place behind it.
fn next_text(line: &[u8], at: usize, text: &[u8]) -> Operand
    requires { at ≤ length line.now }
    ensures { Reads line.now result (text_next text.now (drop at line.now)) }
{
    if line.len() - at < text.len() {
        return Operand {
            valid: false,
            value: 0,
            next: at,
        };
    }
    let end = at + text.len();
    if same_bytes(&line[at..end], text) {
        return Operand {
            valid: true,
            value: 0,
            next: end,
        };
    }
    Operand {
        valid: false,
        value: 0,
        next: at,
    }
}

// Eight times a blank and a decimal, at a place.
fn next_eight(line: &[u8], at: usize) -> Eight
    requires { at ≤ length line.now }
    ensures { ReadsEight line.now result (decimals_next 8 word_most (drop at line.now)) }
{
    let mut valid = true;
    let mut values = [0u32; 8];
    let mut next = at;
    let mut i = 0;
    while i < 8 {
        let x = next_decimal(line, next, 4294967295);
        values[i] = x.value as u32;
        valid = valid & x.valid;
        next = x.next;
        i += 1;
    }
    Eight {
        valid,
        values,
        next,
    }
}

// What follows the seed's word, from a place to the line's end.
fn read_settings(line: &[u8], at: usize) -> Settings
    requires { at ≤ length line.now }
    ensures { result ≡ settings_of (drop at line.now) }
{
    let s = next_text(line, at, b" span");
    let s_next = s.next;
    let span = next_decimal(line, s_next, 4294967295);
    let span_next = span.next;
    let w = next_text(line, span_next, b" weights");
    let w_next = w.next;
    let eight = next_eight(line, w_next);
    let eight_next = eight.next;
    let k = next_text(line, eight_next, b" count");
    let k_next = k.next;
    let count = next_decimal(line, k_next, 100000);
    let weights = eight.values;
    let valid = s.valid
        & span.valid
        & w.valid
        & eight.valid
        & k.valid
        & count.valid
        & (1 <= count.value)
        & (line.len() <= count.next);
    Settings {
        valid,
        span: span.value as u32,
        weights,
        count: count.value as u32,
    }
}

// 17 for the seed, then 18 for the profile, 0 for neither.
fn judge(seed_code: u8, good: bool) -> u8
    ensures { result ≡ judged seed_code good }
{
    choose(seed_code != 0, 17, choose(!good, 18, 0))
}

fn refuse(code: u8) -> FirstLine
    ensures { result ≡ refused_with code }
{
    FirstLine {
        code,
        seed: 0,
        span: 0,
        weights: [0u32; 8],
        count: 0,
    }
}

// The first line of draw, its line end taken off.
pub fn first_line(line: &[u8]) -> FirstLine
    ensures { result ≡ first_line_of line.now }
{
    let s = next_text(line, 0, b"seed ");
    let from = s.next;
    let end = find(line, from, 32);
    let rest = read_settings(line, end);
    let seed = seed_text(&line[from..end]);
    if !((line.len() <= 128) & s.valid & (from < end) & rest.valid) {
        return refuse(14);
    }
    let span = rest.span;
    let weights = rest.weights;
    let code = judge(seed.code, is_good(span, weights));
    if code != 0 {
        return refuse(code);
    }
    FirstLine {
        code: 0,
        seed: seed.seed,
        span,
        weights,
        count: rest.count,
    }
}
