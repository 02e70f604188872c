// Runs the tape library over the cases in its data files 00, 01, .. up to the first that is missing, and writes each
// answer. docs/TAPE.md has the form of a case; tools/tape_cases.py makes the files and, from document 01 alone, what
// this program must write.
#![tactic(auto)]

ghost use Rattle.std.specs.Prelude.{◌-◌, ◌≤◌, ◌<◌, IfOk, length};

use rules::{Refusal, code};
use std::fs::File;
use std::io::Read as _;
use std::rt::Files;
use std::{array, io};
use tape::Record;

// Bytes before a case's tape: kind, length, six fields, value, place.
const HEAD: usize = 24;

fn hex(rt: &impl Print, p: &[u8]) -> io::Result<()> {
    for b in p {
        print!(rt; "{b:02x}")?;
    }
    Ok(())
}

fn byte(d: &[u8], i: usize) -> u8 {
    d.get(i).copied().unwrap_or(0)
}

// The number in the 8 bytes from an index on, least first.
fn number(d: &[u8], from: usize) -> u64
    requires { from ≤ 16 }
{
    u64::from_le_bytes(array::from_fn(|i| byte(d, from + i)))
}

// What is written is written in small pieces, each number and each blank by itself: where a write fails, those before it
// are out. (Two functions: what prints has a text of two kilobytes in its stack, and one call stands there at a time.)
fn text(rt: &impl Print, s: &str) -> io::Result<()> {
    rt.print(s)
}

fn decimal(rt: &impl Print, n: u64) -> io::Result<()> {
    rt.print(n)
}

fn field(rt: &impl Print, n: u64) -> io::Result<()> {
    text(rt, " ")?;
    decimal(rt, n)
}

fn show_record(rt: &impl Print, r: Record) -> io::Result<()> {
    field(rt, u64::from(r.op))?;
    field(rt, u64::from(r.a))?;
    field(rt, u64::from(r.b))?;
    field(rt, u64::from(r.code))?;
    field(rt, u64::from(r.running))?;
    field(rt, u64::from(r.released))?;
    field(rt, r.value)
}

fn show(rt: &impl Print, read: Result<Option<Record>, Refusal>) -> io::Result<()> {
    match read {
        Ok(Some(r)) => {
            text(rt, "record")?;
            show_record(rt, r)
        }
        Ok(None) => text(rt, "end"),
        Err(refusal) => {
            text(rt, "refused")?;
            field(rt, u64::from(refusal.number()))
        }
    }
}

// Writes what a reader answers at a place: place, answer, number, part, next place.
fn answer(rt: &impl Print, tape: &[u8], at: usize) -> io::Result<()> {
    place(rt, at)?;
    show(
        rt,
        tape::read_at(tape, at).map(|found| found.map(|(r, _)| r)),
    )?;
    code_and_part(rt, tape::code_at(tape, at), tape::part_at(tape, at))?;
    next_place(rt, tape::next_at(tape, at))
}

// The parts of such a line.
fn place(rt: &impl Print, at: usize) -> io::Result<()> {
    decimal(rt, at as u64)?;
    text(rt, ": ")
}

fn code_and_part(rt: &impl Print, code: u8, part: &[u8]) -> io::Result<()> {
    text(rt, ", code")?;
    field(rt, u64::from(code))?;
    text(rt, ", part ")?;
    hex(rt, part)
}

fn next_place(rt: &impl Print, next: usize) -> io::Result<()> {
    text(rt, ", next ")?;
    decimal(rt, next as u64)?;
    text(rt, "\n")
}

// The record that a part holds: none where it is empty.
fn held(part: &[u8]) -> Option<Record> {
    if part.is_empty() {
        return None;
    }
    Some(tape::record_of(part))
}

// Writes what a reader has answered, from that alone: its place, its part and the number, its next place.
fn told(rt: &impl Print, at: usize, handed: Result<&[u8], Refusal>, next: usize) -> io::Result<()> {
    place(rt, at)?;
    show(rt, handed.map(|part| held(part)))?;
    code_and_part(rt, code(handed.map(|_| ())), handed.unwrap_or(&[]))?;
    next_place(rt, next)
}

// A whole tape by one reader, from its opening until its place is kept.
fn tape_case(rt: &impl Print, tape: &[u8]) -> io::Result<()> {
    let mut r = tape_reader::open(tape);
    for _ in 0..101u8 {
        let at = r.at;
        let handed = tape_reader::next(&mut r);
        told(rt, at, handed, r.at)?;
        if r.at == at {
            break;
        }
    }
    Ok(())
}

// A record into a buffer: the code, the buffer after it, and what a reader then answers there.
fn write_into(rt: &impl Print, out: &mut [u8], at: usize, r: Record) -> io::Result<()> {
    let checked = tape::write_at(out, at, r);
    text(rt, "write")?;
    show_record(rt, r)?;
    text(rt, ", code")?;
    field(rt, u64::from(code(checked)))?;
    text(rt, ", buffer ")?;
    hex(rt, out)?;
    text(rt, "\n")?;
    answer(rt, out, at)
}

// The buffer holds bytes 170 before.
fn write_case(rt: &impl Print, n: usize, at: usize, r: Record) -> io::Result<()> {
    let mut space = [170u8; 64];
    if n <= 64 {
        write_into(rt, &mut space[..n], at, r)?;
    }
    Ok(())
}

fn record(d: &[u8]) -> Record {
    Record {
        op: byte(d, 2),
        a: byte(d, 3),
        b: byte(d, 4),
        code: byte(d, 5),
        running: byte(d, 6),
        released: byte(d, 7),
        value: number(d, 8),
    }
}

// One case. Answers how many bytes it took: all where they are too few for a case.
fn one_case(rt: &impl Print, d: &[u8]) -> io::Result<usize>
    requires { 0 < length d.now }
    ensures { IfOk result (λ n. (0 < n) × (n ≤ length d.now)) }
{
    let n = usize::from(byte(d, 1));
    let end = HEAD + n;
    if d.len() < end {
        return Ok(d.len());
    }
    let at = number(d, 16) as usize;
    match byte(d, 0) {
        b'T' => tape_case(rt, &d[HEAD..end])?,
        b'R' => answer(rt, &d[HEAD..end], at)?,
        _ => write_case(rt, n, at, record(d))?,
    }
    Ok(end)
}

fn all(rt: &impl Print, cases: &[u8]) -> io::Result<()> {
    let mut at: usize = 0;
    while at < cases.len() {
        at += one_case(rt, &cases[at..])?;
    }
    Ok(())
}

fn one_file(rt: &(impl Files + Print + Alloc), i: u8) -> io::Result<bool> {
    let name = format!(in rt.alloc(); "{i:02}")?;
    match File::open(rt, name.as_str()) {
        Ok(mut file) => {
            println!(rt; "file {name}")?;
            let mut data = Vec::new(rt.alloc());
            file.read_to_end(&mut data)?;
            all(rt, data.as_slice())?;
            Ok(true)
        }
        Err(_) => Ok(false),
    }
}

fn main(rt: HostRuntime) -> io::Result<()> {
    for i in 0..100u8 {
        if !one_file(&rt, i)? {
            break;
        }
    }
    Ok(())
}
