// The lines that the program salvage prints, put into a buffer: one for each dropped stretch, and the last line.
//
// The private functions put a line at a place where there is room for the longest one.
#![tactic(auto)]

ghost use Rattle.std.specs.Prelude.{◌≡◌, ◌+◌, ◌*◌, ◌≤◌, length};
ghost use Rattle.decimal.specs.Buffer.{contents_after, place_after};
ghost use Rattle.text.specs.Printed.{Written};
ghost use Rattle.salvage_text.specs.Lines.{stretch_text, list_text, yes_no, last_text};
ghost use Rattle.salvage_text.specs.Lines.{stretch_room, last_room, list_room};

use decimal_print::put_decimal;
use text_print::put_text;

fn put_stretch(out: &mut [u8], at: usize, first: u64, size: u64) -> usize
    requires { at + stretch_room ≤ length out.old }
    ensures { Written out.old at (stretch_text first size) out.new result }
{
    let byte = put_text(out, at, b"dropped: first byte ");
    let comma = put_decimal(out, byte, first);
    let length = put_text(out, comma, b", length ");
    let end = put_decimal(out, length, size);
    put_text(out, end, b"\n")
}

fn put_stretches(out: &mut [u8], cells: &[u64]) -> usize
    requires { list_room cells.now ≤ length out.old }
    ensures { Written out.old 0 (list_text cells.now) out.new result }
{
    let mut at = 0;
    let mut left = cells;
    // Kept (rule): `chunks_exact` divides the list's length, and what prints may not.
    while let [first, size, more @ ..] = left {
        at = put_stretch(out, at, *first, *size);
        left = more;
    }
    at
}

// The most cells whose room is a number of 64 bits: no buffer has room for more.
const MOST: usize = 527049830677415760;

// The lines of a list of stretches (first byte and length of each, one after another) from place 0 on, and how many
// bytes they have, where there is room for 35 bytes for each number; else nothing, and 0.
pub fn put_list(out: &mut [u8], cells: &[u64]) -> usize
    ensures { (result
        ≡ place_after (list_room cells.now) out.old 0 (list_text cells.now))
        × (out.new
        ≡ contents_after (list_room cells.now) out.old 0 (list_text cells.now)) }
{
    if MOST < cells.len() {
        return 0;
    }
    if out.len() < 35 * cells.len() {
        return 0;
    }
    put_stretches(out, cells)
}

fn put_yes_no(out: &mut [u8], at: usize, headed: bool) -> usize
    requires { at + 4 ≤ length out.old }
    ensures { Written out.old at (yes_no headed) out.new result }
{
    if headed {
        return put_text(out, at, b"yes\n");
    }
    put_text(out, at, b"no\n")
}

fn put_counts(out: &mut [u8], records: u64, dropped: u64, headed: bool) -> usize
    requires { last_room ≤ length out.old }
    ensures { Written out.old 0 (last_text records dropped headed) out.new result }
{
    let kept = put_text(out, 0, b"kept: records ");
    let comma = put_decimal(out, kept, records);
    let bytes = put_text(out, comma, b", dropped bytes ");
    let next = put_decimal(out, bytes, dropped);
    let header = put_text(out, next, b", header ");
    put_yes_no(out, header, headed)
}

// The last line from place 0 on, and how many bytes it has, where there is room for 83; else nothing, and 0.
pub fn put_last(out: &mut [u8], records: u64, dropped: u64, headed: bool) -> usize
    ensures { (result ≡ place_after last_room out.old 0 (last_text records dropped headed))
        × (out.new ≡ contents_after last_room out.old 0 (last_text records dropped headed)) }
{
    if out.len() < 83 {
        return 0;
    }
    put_counts(out, records, dropped, headed)
}
