// The 16 bytes of a record: read, written, known by their mark, and tested for a header or a command record. Which
// fields make one is crate record's to say.
//
// No public function has a `requires`. What each answer is: crate record, specs/Form.
#![tactic(auto)]

ghost use Rattle.std.specs.Prelude.{◌≡◌, get_or};
ghost use Rattle.record.specs.Form.{le8, of_le, bytes_of, record_of, marked, is_header, is_command};

use record::{Record, header_fields, in_command, is_seed};
use std::array;

// The byte at an index, 0 past the end: so that what is read of too few bytes is fixed too.
fn byte(p: &[u8], i: usize) -> u8
    ensures { result ≡ get_or p.now i 0 }
{
    p.get(i).copied().unwrap_or(0)
}

// The number that 8 bytes hold, least first. (The image reads its numbers by it too.)
pub fn number_of(b: [u8; 8]) -> u64
    ensures { result ≡ of_le b 0 }
{
    u64::from_le_bytes(b)
}

// A number's 8 bytes, least first. (The image writes its numbers by it too.)
pub fn number_bytes(x: u64) -> [u8; 8]
    ensures { result ≡ le8 x }
{
    x.to_le_bytes()
}

fn value_of(p: &[u8]) -> u64
    ensures { result ≡ of_le p.now 8 }
{
    number_of(array::from_fn(|i| byte(p, 8 + i)))
}

// The fields that 16 bytes hold, as the part that a reader hands back; a byte that is not there counts as 0.
#[tactic(auto, unfolding(record::specs::Form::record_of))]
pub fn record_of(p: &[u8]) -> Record
    ensures { result ≡ record_of p.now }
{
    Record {
        op: byte(p, 2),
        a: byte(p, 3),
        b: byte(p, 4),
        code: byte(p, 5),
        running: byte(p, 6),
        released: byte(p, 7),
        value: value_of(p),
    }
}

// A record's 16 bytes, mark and all; any fields have some.
#[tactic(auto, unfolding(record::specs::Form::bytes_of))]
pub fn bytes_of(r: Record) -> [u8; 16]
    ensures { result ≡ bytes_of r }
{
    let v = number_bytes(r.value);
    [
        0x52, 0x56, r.op, r.a, r.b, r.code, r.running, r.released, v[0], v[1], v[2], v[3], v[4],
        v[5], v[6], v[7],
    ]
}

// 16 bytes begin with the mark.
pub fn is_marked(p: &[u8]) -> bool
    ensures { result ≡ marked p.now }
{
    (byte(p, 0) == 0x52) & (byte(p, 1) == 0x56)
}

// 16 bytes are a header: its mark, its fields, and a seed.
pub fn is_header(p: &[u8]) -> bool
    ensures { result ≡ is_header p.now }
{
    let r = record_of(p);
    is_marked(p) & header_fields(r) & is_seed(r.value)
}

// 16 bytes are a command record, read byte by byte, the mark first. No `Record` is made and no value is read: so it is
// small enough to stand inside a loop that asks it at each byte of a tape.
#[tactic(auto, unfolding(record::specs::Form::record_of))]
pub fn is_command(p: &[u8]) -> bool
    ensures { result ≡ is_command p.now }
{
    if !is_marked(p) {
        return false;
    }
    in_command(byte(p, 2), byte(p, 5), byte(p, 6), byte(p, 7))
}
