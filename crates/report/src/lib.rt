// The report on a tape, two lines: its seed, and the verdict. The program judge prints it.
//
// The private functions put a part of it at a place, where there is room; each says how many bytes it may need, a
// decimal having at most 20.
#![tactic(auto)]

ghost use Rattle.std.specs.Prelude.{◌≡◌, [], ◌++◌, ◌+◌, ◌-◌, ◌≤◌, length, take, get_or};
ghost use Rattle.decimal.specs.Decimal.{decimal};
ghost use Rattle.decimal.specs.Buffer.{contents_after, place_after};
ghost use Rattle.text.specs.Commands.{words, operand_text};
ghost use Rattle.judge_verdict.specs.declared.Verdict.TheVariants.{Refused};
ghost use Rattle.report_text.specs.Report.{stands_at, line_text, command_text, answer_text, answers_text};
ghost use Rattle.report_text.specs.Report.{difference_text, verdict_text, report_text, report_room};
ghost use Rattle.report.specs.Put.{Put};

use decimal_print::put_decimal;
use judge_record::place_of;
use judge_verdict::{Command, Difference, Judgement, Kept, RefusedAt, Verdict};
use text_command::{takes_b, takes_value, writes_a};
use text_print::put_text;

fn put(out: &mut [u8], at: usize, text: &[u8]) -> usize
    requires { at + length text.now ≤ length out.old }
    ensures { Put (length text.now) out.old at text.now out.new result }
{
    put_text(out, at, text)
}

// A text, and a number behind it.
fn put_named(out: &mut [u8], at: usize, text: &[u8], n: u64) -> usize
    requires { at + (length text.now + 20) ≤ length out.old }
    ensures { Put (length text.now + 20) out.old at (text.now ++ decimal n)
        out.new result }
{
    let next = put(out, at, text);
    put_decimal(out, next, n)
}

fn put_small(out: &mut [u8], at: usize, text: &[u8], n: u8) -> usize
    requires { at + (length text.now + 20) ≤ length out.old }
    ensures { Put (length text.now + 20) out.old at (text.now ++ decimal n)
        out.new result }
{
    put_named(out, at, text, n as u64)
}

// A word: the first of these bytes, and how many.
#[derive(Drop)]
struct Word([u8; 7], usize);

// The word of an op. (Op 0, which no command record has, has that of op 1: so the definition of a command's line has
// it.)
fn word_of(op: u8) -> Word
    ensures { (take result.1 result.0 ≡ get_or words (op - 1) []) × (result.1 ≤ 7) × (length result.0 ≡ 7) }
{
    match op {
        0 | 1 => Word(*b"create ", 6),
        2 => Word(*b"object ", 6),
        3 => Word(*b"start  ", 5),
        4 => Word(*b"delay  ", 5),
        5 => Word(*b"wake   ", 4),
        6 => Word(*b"advance", 7),
        7 => Word(*b"open   ", 4),
        8 => Word(*b"closep ", 6),
        9 => Word(*b"closef ", 6),
        10 => Word(*b"entry  ", 5),
        11 => Word(*b"done   ", 4),
        12 => Word(*b"failp  ", 5),
        13 => Word(*b"failf  ", 5),
        14 => Word(*b"faile  ", 5),
        15 => Word(*b"failw  ", 5),
        _ => Word(*b"       ", 0),
    }
}

fn put_word(out: &mut [u8], at: usize, op: u8) -> usize
    requires { at + 7 ≤ length out.old }
    ensures { Put 7 out.old at (get_or words (op - 1) []) out.new result }
{
    let w = word_of(op);
    let bytes = w.0;
    let len = w.1;
    put(out, at, &bytes[..len])
}

// An operand behind a blank, if the op has it in its line.
fn put_operand(out: &mut [u8], at: usize, used: bool, n: u64) -> usize
    requires { at + 21 ≤ length out.old }
    ensures { Put 21 out.old at (operand_text used n) out.new result }
{
    if used {
        return put_named(out, at, b" ", n);
    }
    at
}

// The command's line.
fn put_line(out: &mut [u8], at: usize, c: Command) -> usize
    requires { at + 70 ≤ length out.old }
    ensures { Put 70 out.old at (line_text c) out.new result }
{
    let op = c.op;
    let a = put_word(out, at, op);
    let b = put_operand(out, a, writes_a(op, c.a), c.a as u64);
    let value = put_operand(out, b, takes_b(op), c.b as u64);
    put_operand(out, value, takes_value(op), c.value)
}

// The command's line, and all its numbers in brackets: also those that the line does not show.
fn put_command(out: &mut [u8], at: usize, c: Command) -> usize
    requires { at + 172 ≤ length out.old }
    ensures { Put 172 out.old at (command_text c) out.new result }
{
    let op = put_line(out, at, c);
    let a = put_small(out, op, b" (op ", c.op);
    let b = put_small(out, a, b", a ", c.a);
    let value = put_small(out, b, b", b ", c.b);
    let end = put_named(out, value, b", value ", c.value);
    put(out, end, b")")
}

fn put_answer(out: &mut [u8], at: usize, x: Kept) -> usize
    requires { at + 86 ≤ length out.old }
    ensures { Put 86 out.old at (answer_text x) out.new result }
{
    let running = put_small(out, at, b"code ", x.code);
    let released = put_small(out, running, b", running ", x.running.0);
    put_small(out, released, b", released ", x.released.0)
}

fn put_where(out: &mut [u8], at: usize, number: usize, place: usize) -> usize
    requires { at + 58 ≤ length out.old }
    ensures { Put 58 out.old at (stands_at number place) out.new result }
{
    let byte = put_named(out, at, b" at record ", number as u64);
    put_named(out, byte, b", byte ", place as u64)
}

// The answer on the tape, and the rules'.
fn put_answers(out: &mut [u8], at: usize, tape: Kept, rules: Kept) -> usize
    requires { at + 189 ≤ length out.old }
    ensures { Put 189 out.old at (answers_text tape rules) out.new result }
{
    let first = put(out, at, b"; tape: ");
    let next = put_answer(out, first, tape);
    let second = put(out, next, b"; rules: ");
    put_answer(out, second, rules)
}

fn put_difference(out: &mut [u8], at: usize, d: Difference) -> usize
    requires { at + 428 ≤ length out.old }
    ensures { Put 428 out.old at (difference_text d) out.new result }
{
    let number = put(out, at, b"differs");
    let colon = put_where(out, number, d.number, place_of(d.number));
    let command = put(out, colon, b": ");
    let answers = put_command(out, command, d.command);
    put_answers(out, answers, d.tape, d.rules)
}

fn put_refusal(out: &mut [u8], at: usize, r: RefusedAt) -> usize
    requires { at + 86 ≤ length out.old }
    ensures { Put 86 out.old at (verdict_text (Refused r)) out.new result }
{
    let number = put_small(out, at, b"refused ", r.code);
    put_where(out, number, r.number, r.place)
}

fn put_verdict(out: &mut [u8], at: usize, v: Verdict) -> usize
    requires { at + 428 ≤ length out.old }
    ensures { Put 428 out.old at (verdict_text v) out.new result }
{
    match v {
        Verdict::Agrees(k) => {
            let end = put_named(out, at, b"agrees: ", k as u64);
            put(out, end, b" command records")
        }
        Verdict::Differs(d) => put_difference(out, at, d),
        Verdict::Refused(r) => put_refusal(out, at, r),
    }
}

fn put_lines(out: &mut [u8], j: Judgement) -> usize
    requires { report_room ≤ length out.old }
    ensures { Put report_room out.old 0 (report_text j) out.new result }
{
    let first = put_named(out, 0, b"seed ", j.seed);
    let second = put(out, first, b"\n");
    let verdict = j.verdict;
    let end = put_verdict(out, second, verdict);
    put(out, end, b"\n")
}

// The report from place 0 on, and its length, where there is room for 512 bytes; else nothing, and 0.
pub fn put_report(out: &mut [u8], j: Judgement) -> usize
    ensures { (result ≡ place_after report_room out.old 0 (report_text j))
        × (out.new ≡ contents_after report_room out.old 0 (report_text j)) }
{
    if out.len() < 512 {
        return 0;
    }
    put_lines(out, j)
}
