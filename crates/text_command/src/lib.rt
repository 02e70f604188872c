// Command lines: the command's word and its operands, single blanks, unsigned decimals.
#![tactic(auto)]

ghost use Rattle.std.specs.Prelude.{◌≡◌, ◌≤◌, ◌<◌, length, drop, get_or};
ghost use Rattle.text.specs.Words.{same};
ghost use Rattle.text.specs.Commands.{named_from, op_named, uses_a, uses_b, uses_value, omits_a, operand};
ghost use Rattle.text.specs.Commands.{operand_unless, written, command_of, no_command};
ghost use Rattle.text_command.specs.Method.{word_at, words_in};
ghost use Rattle.text_word.specs.Places.{Reads};

use text::Spoken;
use text_word::{Operand, find, next_decimal, same_bytes};

// The byte that a word begins with, a blank where it has none.
fn first_of(word: &[u8]) -> u8
    ensures { result ≡ get_or word.now 0 32 }
{
    if word.len() == 0 {
        return 32;
    }
    word[0]
}

// Whether a word of a text stands at a place. `first` is the byte that the word begins with: it nearly always tells.
fn stands_at(word: &[u8], first: u8, words: &[u8], at: usize) -> bool
    requires { (first ≡ get_or word.now 0 32) × (at < length words.now) }
    ensures { result ≡ same word.now (word_at words.now at) }
{
    if words[at] != first {
        return false;
    }
    let end = find(words, at, 32);
    same_bytes(word, &words[at..end])
}

// The number of a word among those of a text, eight bytes for each: 1 for the first, 0 for none.
fn number_among(word: &[u8], words: &[u8]) -> u8
    requires { length words.now ≤ 2032 }
    ensures { result ≡ named_from 1 (words_in 255 words.now) word.now }
{
    let first = first_of(word);
    let mut n = 1u8;
    let mut at: usize = 0;
    while at < words.len() {
        if stands_at(word, first, words, at) {
            return n;
        }
        at += 8;
        n += 1;
    }
    0
}

// The op that a word names, 0 for none: the words stand in the order of the ops, from 1 on.
fn op_of(word: &[u8]) -> u8
    ensures { result ≡ op_named word.now }
{
    number_among(
        word,
        b"create  object  start   delay   wake    advance open    closep  closef  entry   done    failp   failf   faile   failw   ",
    )
}

// Whether a line of the op has the operand.
pub fn takes_a(op: u8) -> bool
    ensures { result ≡ uses_a op }
{
    (op == 1)
        | ((op == 2)
            | ((op == 7)
                | ((op == 8)
                    | ((op == 9)
                        | ((op == 10)
                            | ((op == 11)
                                | ((op == 12)
                                    | ((op == 13) | ((op == 14) | ((op == 15) | false))))))))))
}

pub fn takes_b(op: u8) -> bool
    ensures { result ≡ uses_b op }
{
    (op == 1)
        | ((op == 2)
            | ((op == 8)
                | ((op == 10) | ((op == 11) | ((op == 12) | ((op == 14) | ((op == 15) | false)))))))
}

pub fn takes_value(op: u8) -> bool
    ensures { result ≡ uses_value op }
{
    (op == 4) | ((op == 6) | false)
}

// An operand, where it is in use; else 0, and no byte.
fn take_operand(line: &[u8], at: usize, used: bool, most: u64) -> Operand
    requires { at ≤ length line.now }
    ensures { Reads line.now result (operand used most (drop at line.now)) }
{
    if used {
        return next_decimal(line, at, most);
    }
    Operand {
        valid: true,
        value: 0,
        next: at,
    }
}

// Whether the op's a may be left out of the line. There is no such op today.
fn omits_a(op: u8) -> bool
    ensures { result ≡ omits_a op }
{
    false
}

// Whether a command's line says a: what may be left out is said where it is not 0.
pub fn writes_a(op: u8, a: u8) -> bool
    ensures { result ≡ written (omits_a op) (uses_a op) a }
{
    !(omits_a(op) & (a == 0)) & takes_a(op)
}

// An operand that may be left out, where `omits` is true: it is read where the line goes on, and is not 0 then.
fn take_unless(line: &[u8], at: usize, omits: bool, used: bool, most: u64) -> Operand
    requires { at ≤ length line.now }
    ensures { Reads line.now result (operand_unless omits used most (drop at line.now)) }
{
    let over = line.len() <= at;
    let p = take_operand(line, at, !(omits & over) & used, most);
    Operand {
        valid: !(omits & !over & (p.value == 0)) & p.valid,
        value: p.value,
        next: p.next,
    }
}

// The bytes that a command line may have, without its end.
const LINE_MOST: usize = 64;

// Code 14 and zeros.
pub fn no_command() -> Spoken
    ensures { result ≡ no_command }
{
    Spoken {
        code: 14,
        op: 0,
        a: 0,
        b: 0,
        value: 0,
    }
}

// What a line says, its line end taken off.
pub fn command(line: &[u8]) -> Spoken
    ensures { result ≡ command_of line.now }
{
    if LINE_MOST < line.len() {
        return no_command();
    }
    let end = find(line, 0, 32);
    let op = op_of(&line[..end]);
    let a = take_unless(line, end, omits_a(op), takes_a(op), 255);
    let a_next = a.next;
    let b = take_operand(line, a_next, takes_b(op), 255);
    let b_next = b.next;
    let v = take_operand(line, b_next, takes_value(op), 18446744073709551615);
    if (1 <= op) & a.valid & b.valid & v.valid & (line.len() <= v.next) {
        return Spoken {
            code: 0,
            op,
            a: a.value as u8,
            b: b.value as u8,
            value: v.value,
        };
    }
    no_command()
}
