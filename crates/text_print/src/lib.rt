// The lines that the programs print, put into a buffer at a place. Where there is less room than a line may need,
// nothing is put.
#![tactic(auto)]

ghost use Rattle.std.specs.Prelude.{◌≡◌, ◌+◌, ◌≤◌, leb, length};
ghost use Rattle.decimal.specs.Buffer.{contents_after, place_after};
ghost use Rattle.text.specs.Words.{blank};
ghost use Rattle.text.specs.Printed.{Written, field, walk_header, draw_header, answer_fields, walk_line};
ghost use Rattle.text.specs.Printed.{draw_line, header_room, walk_room, draw_room};

use decimal_print::put_decimal;
use text::Row;

fn put_bytes(out: &mut [u8], at: usize, text: &[u8]) -> usize
    requires { at + length text.now ≤ length out.old }
    ensures { Written out.old at text.now out.new result }
{
    let mut i = 0;
    while i < text.len() {
        out[at + i] = text[i];
        i += 1;
    }
    at + i
}

// A decimal and the byte behind it, where there is room for 21 bytes; the next place.
fn put_field(out: &mut [u8], at: usize, n: u64, end: u8) -> usize
    requires { at + 21 ≤ length out.old }
    ensures { Written out.old at (field n end) out.new result × (result ≤ at + 21) }
{
    let next = put_decimal(out, at, n);
    out[next] = end;
    next + 1
}

// A number below 256, and a blank.
fn put_small(out: &mut [u8], at: usize, n: u8) -> usize
    requires { at + 21 ≤ length out.old }
    ensures { Written out.old at (field n blank) out.new result × (result ≤ at + 21) }
{
    put_field(out, at, n as u64, 32)
}

// Whether `need` bytes are left behind a place.
fn has_room(len: usize, at: usize, need: usize) -> bool
    ensures { result ≡ leb (at + need) len }
{
    if len < need {
        return false;
    }
    at <= len - need
}

// A text put at a place where it has room, and the next place; else nothing, and the same place.
pub fn put_text(out: &mut [u8], at: usize, text: &[u8]) -> usize
    ensures { (result ≡ place_after (length text.now) out.old at text.now)
        × (out.new ≡ contents_after (length text.now) out.old at text.now) }
{
    if has_room(out.len(), at, text.len()) {
        return put_bytes(out, at, text);
    }
    at
}

pub fn put_walk_header(out: &mut [u8], at: usize) -> usize
    ensures { (result ≡ place_after header_room out.old at walk_header)
        × (out.new ≡ contents_after header_room out.old at walk_header) }
{
    if has_room(out.len(), at, 64) {
        return put_bytes(out, at, b"n op code run rel clock\n");
    }
    at
}

pub fn put_draw_header(out: &mut [u8], at: usize) -> usize
    ensures { (result ≡ place_after header_room out.old at draw_header)
        × (out.new ≡ contents_after header_room out.old at draw_header) }
{
    if has_room(out.len(), at, 64) {
        return put_bytes(out, at, b"n op a b value code run rel clock\n");
    }
    at
}

// Code, running, released, clock: the end of a line.
fn answer_fields(out: &mut [u8], at: usize, row: Row) -> usize
    requires { at + 84 ≤ length out.old }
    ensures { Written out.old at (answer_fields row) out.new result }
{
    let running = put_small(out, at, row.code);
    let released = put_small(out, running, row.running);
    let clock = put_small(out, released, row.released);
    put_field(out, clock, row.clock, 10)
}

fn walk_fields(out: &mut [u8], at: usize, row: Row) -> usize
    requires { at + walk_room ≤ length out.old }
    ensures { Written out.old at (walk_line row) out.new result }
{
    let op = put_field(out, at, row.n, 32);
    let code = put_small(out, op, row.op);
    answer_fields(out, code, row)
}

pub fn put_walk_line(out: &mut [u8], at: usize, row: Row) -> usize
    ensures { (result ≡ place_after walk_room out.old at (walk_line row))
        × (out.new ≡ contents_after walk_room out.old at (walk_line row)) }
{
    if has_room(out.len(), at, 128) {
        return walk_fields(out, at, row);
    }
    at
}

fn draw_fields(out: &mut [u8], at: usize, row: Row) -> usize
    requires { at + draw_room ≤ length out.old }
    ensures { Written out.old at (draw_line row) out.new result }
{
    let op = put_field(out, at, row.n, 32);
    let a = put_small(out, op, row.op);
    let b = put_small(out, a, row.a);
    let value = put_small(out, b, row.b);
    let code = put_field(out, value, row.value, 32);
    answer_fields(out, code, row)
}

pub fn put_draw_line(out: &mut [u8], at: usize, row: Row) -> usize
    ensures { (result ≡ place_after draw_room out.old at (draw_line row))
        × (out.new ≡ contents_after draw_room out.old at (draw_line row)) }
{
    if has_room(out.len(), at, 192) {
        return draw_fields(out, at, row);
    }
    at
}
