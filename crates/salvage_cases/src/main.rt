// Salvages the stored torn tapes 00, 01, .. up to the first number that has none, whole and in pieces of several sizes.
// It prints of each what ./run salvage prints, and its kept records; and a line where pieces give another answer than
// the whole tape. tools/salvage_cases.py and the second program make the tapes and what this must write.
#![tactic(auto)]

ghost use Rattle.std.specs.Prelude.{◌≡◌, ◌+◌, ◌<◌, min};

use salvage_print::{put_last, put_list};
use salvaging::{Torn, at_first, feed, last_stretch, salvage};
use std::fs::File;
use std::io;
use std::io::Read;
use std::rt::Files;

// What a salvage has put: how many bytes at the front of one buffer, how many numbers at the front of another; and
// whether it kept a header.
#[derive(Clone, Copy, PartialEq, Eq)]
struct Got {
    kept: usize,
    cells: usize,
    headed: bool,
}

// The first n bytes.
fn front(rt: &impl Print, s: &[u8], n: usize) -> io::Result<()> {
    if let Some(front) = s.get(..n) {
        rt.write_all(front)?;
    }
    Ok(())
}

// 16 bytes to a line.
fn hex(rt: &impl Print, p: &[u8]) -> io::Result<()> {
    for (i, b) in p.iter().enumerate() {
        print!(rt; "{b:02x}")?;
        if i % 16 == 15 {
            println!(rt)?;
        }
    }
    Ok(())
}

// The smaller of a + b and most.
fn upto(a: usize, b: usize, most: usize) -> usize
    ensures { result ≡ min (a + b) most }
{
    a.saturating_add(b).min(most)
}

fn bytes_of(records: usize) -> usize {
    if records > 256 { 0 } else { records * 16 }
}

// Of a tape for which there is no room, nothing.
fn whole(tape: &[u8], out: &mut [u8], list: &mut [u64]) -> Got {
    match salvage(tape, out, list) {
        Ok(s) => Got {
            kept: bytes_of(s.records),
            cells: upto(s.stretches, s.stretches, 1024),
            headed: s.headed,
        },
        Err(_) => Got {
            kept: 0,
            cells: 0,
            headed: false,
        },
    }
}

// The last stretch, if there is one; how many numbers are listed then.
fn close(t: Torn, held: usize, list: &mut [u64], cells: usize) -> usize {
    let x = last_stretch(t, held);
    if x.size == 0 || list.len() < 2 || list.len() - 2 < cells {
        return cells;
    }
    list[cells] = x.first;
    list[cells + 1] = x.size;
    cells + 2
}

// A piece that is refused is held, and comes again with the next one.
fn in_pieces(tape: &[u8], size: usize, out: &mut [u8], list: &mut [u64]) -> Got
    requires { 0 < size }
{
    let mut t = at_first();
    let mut done: usize = 0;
    let mut end: usize = 0;
    let mut kept: usize = 0;
    let mut cells: usize = 0;
    while end < tape.len() {
        end = upto(end, size, tape.len());
        if let Ok(f) = feed(t, &tape[done..end], &mut out[kept..], &mut list[cells..]) {
            t = f.torn;
            done = upto(done, f.done, end);
            kept = upto(kept, f.kept, out.len());
            cells = upto(cells, f.cells, list.len());
        }
    }
    let cells = close(t, end - done, list, cells);
    Got {
        kept,
        cells,
        headed: t.headed,
    }
}

// Both have n elements at their front, and the same.
fn same<T: PartialEq>(a: &[T], b: &[T], n: usize) -> bool {
    match (a.get(..n), b.get(..n)) {
        (Some(a), Some(b)) => a == b,
        _ => false,
    }
}

fn same_in_pieces(tape: &[u8], size: usize, out: &[u8], list: &[u64], g: Got) -> bool
    requires { 0 < size }
{
    let mut bytes = [0u8; 4096];
    let mut numbers = [0u64; 1024];
    let p = in_pieces(tape, size, &mut bytes, &mut numbers);
    p == g && same(&bytes, out, g.kept) && same(&numbers, list, g.cells)
}

fn show(rt: &impl Print, tape: &[u8], out: &[u8], list: &[u64], g: Got) -> io::Result<()> {
    let (Some(cells), Some(kept), Some(dropped)) = (
        list.get(..g.cells),
        out.get(..g.kept),
        tape.len().checked_sub(g.kept),
    ) else {
        return Ok(());
    };
    let mut lines = [0u8; 35840];
    let n = put_list(&mut lines, cells);
    front(rt, &lines, n)?;
    let m = put_last(&mut lines, (g.kept >> 4) as u64, dropped as u64, g.headed);
    front(rt, &lines, m)?;
    hex(rt, kept)
}

fn one_tape(rt: &impl Print, tape: &[u8]) -> io::Result<()> {
    let mut out = [0u8; 4096];
    let mut list = [0u64; 1024];
    let g = whole(tape, &mut out, &mut list);
    show(rt, tape, &out, &list, g)?;
    let same = same_in_pieces(tape, 1, &out, &list, g)
        && same_in_pieces(tape, 7, &out, &list, g)
        && same_in_pieces(tape, 16, &out, &list, g)
        && same_in_pieces(tape, 100, &out, &list, g);
    if !same {
        println!(rt; "pieces differ")?;
    }
    Ok(())
}

fn one_file(rt: &(impl Files + Print + Alloc), i: u8) -> io::Result<bool> {
    let name = format!(in rt.alloc(); "{i:02}")?;
    match File::open(rt, name.as_str()) {
        Ok(mut file) => {
            println!(rt; "case {name}")?;
            let mut data = Vec::new(rt.alloc());
            file.read_to_end(&mut data)?;
            one_tape(rt, data.as_slice())?;
            Ok(true)
        }
        Err(_) => Ok(false),
    }
}

fn main(rt: HostRuntime) -> io::Result<()> {
    for i in 0..100u8 {
        if !one_file(&rt, i)? {
            break;
        }
    }
    Ok(())
}
