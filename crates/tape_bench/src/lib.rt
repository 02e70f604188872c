// The loops that bench/tape times beside C: a tape read from place 0 on, and a buffer filled with records. The library
// exports nothing to C for it.
#![tactic(auto)]

ghost use Rattle.std.specs.Prelude.{◌≡◌};
ghost use Rattle.record.specs.Form.{header_of};
ghost use Rattle.tape_form.specs.Write.{write_of};
ghost use Rattle.tape_bench.specs.Pass.{value_of, turn_of, passed, ticks, filled};

use tape::{Read, Record};

#[derive(Drop)]
struct Pass {
    at: usize,
    sum: u64,
}

fn value_in(r: Read) -> u64
    ensures { result ≡ value_of r }
{
    match r {
        Ok(Some((found, _))) => found.value,
        Ok(None) => 0,
        Err(_) => 0,
    }
}

fn turn(p: Pass, r: Read) -> Pass
    ensures { result ≡ turn_of p r }
{
    let v = value_in(r);
    Pass {
        at: tape::place(p.at, r),
        sum: p.sum ^ v,
    }
}

// The values of the first `records` records of a tape, taken together by xor.
#[unsafe(no_mangle)]
pub extern "C" fn tape_bench_read(tape: &[u8], records: u32) -> u64
    ensures { result ≡ (passed tape.now records).sum }
{
    let mut p = Pass { at: 0, sum: 0 };
    for _i in 0..records {
        let at = p.at;
        p = turn(p, tape::read_at(tape, at));
    }
    p.sum
}

fn ticks_of(i: u32) -> Record
    ensures { result ≡ ticks i }
{
    Record {
        op: 6,
        a: 0,
        b: 0,
        code: 0,
        running: 7,
        released: 0,
        value: u64::from(i),
    }
}

fn fill(out: &mut [u8], records: u32)
    ensures { out.new ≡ filled out.old records }
{
    let mut at: usize = 16;
    for i in 0..records {
        let _ = tape::write_at(out, at, ticks_of(i));
        at += 16;
    }
}

// The header and `records` records, as far as there is room.
#[unsafe(no_mangle)]
pub extern "C" fn tape_bench_write(out: &mut [u8], records: u32)
    ensures { out.new ≡ filled (write_of out.old 0 (header_of 1 1)) records }
{
    let _ = tape::write_at(out, 0, tape::header(1, 1));
    fill(out, records)
}
