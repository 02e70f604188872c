// The layout of an image: the tables of a state read off 512 bytes, and laid out in them. docs/IMAGE.md has it byte by
// byte, image_form/specs/Layout as definitions. Bytes of every length get an answer: no public function has a
// `requires`.
#![tactic(auto)]

ghost use Rattle.std.specs.Prelude.{◌≡◌, ◌++◌, ◌+◌, ◌≤◌, ◌<◌, length, take, drop};
ghost use Rattle.rules.specs.Line.{one_if};
ghost use Rattle.record.specs.Form.{le8, of_le};
ghost use Rattle.kernel.specs.Public.{to_rules};
ghost use Rattle.kernel.specs.Step.{tables};
ghost use Rattle.kernel_state.specs.Public.{both};
ghost use Rattle.image_form.specs.Layout.{image_bytes, bytes_of, numbers_of, flags, exceptions, spare, part, pending_of};
ghost use Rattle.image_form.specs.Layout.{clean, readable, read_of, laid};
ghost use Rattle.image_layout.specs.Settled.{settled_in};

use kernel::{Answer, Command, TaskID};
use kernel_order::is_free;
use kernel_state::{Settled, pending_sound, settle, whose};
use numbers::wide32;
use record_bytes::{number_bytes, number_of};

// The length of an image.
pub const IMAGE_BYTES: usize = 512;

// ---- The bytes that the state does not use

fn is_clean(s: &[u8]) -> bool
    requires { length s.now ≡ image_bytes }
    ensures { result ≡ clean s.now }
{
    (s[8] <= 1) & is_free(&s[9..16]) & is_free(&s[196..224]) & is_free(&s[224..256])
}

// ---- Reading: each part by itself, into an array of its own, which LLVM knows to lie apart: so it makes a memory
// copy of the loop.

// n bytes from a place on into a table of that length.
fn copy(s: &[u8], at: usize, n: usize, table: &mut [u8])
    requires { (at + n ≤ length s.now) × (length table.old ≡ n) }
    ensures { table.new ≡ part n at s.now }
{
    let mut i: usize = 0;
    while i < n {
        table[i] = s[at + i];
        i += 1;
    }
}

fn get8(s: &[u8], at: usize) -> [u8; 8]
    requires { at + 8 ≤ length s.now }
    ensures { result ≡ part 8 at s.now }
{
    let mut r = [0u8; 8];
    copy(s, at, 8, &mut r);
    r
}

fn get32(s: &[u8], at: usize) -> [u8; 32]
    requires { at + 32 ≤ length s.now }
    ensures { result ≡ part 32 at s.now }
{
    let mut r = [0u8; 32];
    copy(s, at, 32, &mut r);
    r
}

fn number_at(s: &[u8], at: usize) -> u64
    requires { at + 8 ≤ length s.now }
    ensures { result ≡ of_le s.now at }
{
    number_of(get8(s, at))
}

// The times, from byte 256 to the end.
fn get_times(s: &[u8]) -> [u64; 32]
    requires { length s.now ≡ image_bytes }
    ensures { result ≡ numbers_of 32 (drop 256 s.now) }
{
    let mut r = [0u64; 32];
    let mut i: usize = 0;
    while i < 32 {
        r[i] = number_at(s, 256 + 8 * i);
        i += 1;
    }
    r
}

// The pending exceptions: the number of the 4 bytes from 192 on.
fn pending_at(s: &[u8]) -> u32
    requires { length s.now ≡ image_bytes }
    ensures { result ≡ pending_of s.now }
{
    wide32(s[192]) + 256 * wide32(s[193]) + 65536 * wide32(s[194]) + 16777216 * wide32(s[195])
}

// Whether the tables may be read: of the state the pending exceptions alone are tested here, since the kernel does not
// see them.
fn is_readable(s: &[u8]) -> bool
    requires { length s.now ≡ image_bytes }
    ensures { result ≡ readable s.now }
{
    if !is_clean(s) {
        return false;
    }
    let base = get32(s, 32);
    pending_sound(&base, s[8] == 1, pending_at(s))
}

// The tables that the bytes hold, into tables that are lent. Bytes of which none can be read, or whose pending
// exceptions are not sound, leave the tables as they are.
pub fn read(
    s: &[u8],
    base: &mut [u8; 32],
    ready: &mut [u8; 32],
    delayed: &mut [u8; 32],
    held: &mut [u8; 32],
    way: &mut [u8; 32],
    until: &mut [u64; 32],
    ceiling: &mut [u8; 8],
    waiter: &mut [u8; 8],
    clock: &mut u64,
    started: &mut bool,
) -> bool
    ensures { (result ≡ readable s.now)
        × (tables base.new ready.new delayed.new held.new way.new
        until.new ceiling.new waiter.new clock.new started.new
        ≡ read_of s.now
        (tables base.old ready.old delayed.old held.old way.old
        until.old ceiling.old waiter.old clock.old
        started.old)) }
{
    if s.len() != IMAGE_BYTES {
        return false;
    }
    if !is_readable(s) {
        return false;
    }
    *clock = number_at(s, 0);
    *started = s[8] == 1;
    *ceiling = get8(s, 16);
    *waiter = get8(s, 24);
    *base = get32(s, 32);
    *ready = get32(s, 64);
    *delayed = get32(s, 96);
    *held = get32(s, 128);
    *way = get32(s, 160);
    *until = get_times(s);
    true
}

// What an answer of the kernel's step, to a command, does to the pending exceptions that the bytes hold; and whether it
// shows one. Byte 64 is the task that ran before it. Bytes of another length hold none.
pub fn settled(s: &[u8], c: Command, answer: Answer) -> Settled
    ensures { result ≡ settled_in s.now (to_rules c) answer }
{
    if s.len() == IMAGE_BYTES {
        return settle(pending_at(s), whose(c), TaskID(s[64]), answer);
    }
    Settled {
        pending: 0,
        exception: false,
    }
}

// ---- Writing: what is written so far grows at its end. Parts are handed over by value, for the same reason.

fn put(s: &mut [u8], at: usize, n: usize, v: &[u8])
    requires { (at + n ≤ image_bytes) × (length s.old ≡ image_bytes) × (length v.now ≡ n) }
    ensures { (length s.new ≡ image_bytes)
        × (take (at + n) s.new ≡ take at s.old ++ v.now) }
{
    let mut i: usize = 0;
    while i < n {
        s[at + i] = v[i];
        i += 1;
    }
}

fn put8(s: &mut [u8], at: usize, v: [u8; 8])
    requires { (at + 8 ≤ image_bytes) × (length s.old ≡ image_bytes) }
    ensures { (length s.new ≡ image_bytes)
        × (take (at + 8) s.new ≡ take at s.old ++ v) }
{
    put(s, at, 8, &v);
}

fn put32(s: &mut [u8], at: usize, v: [u8; 32])
    requires { (at + 32 ≤ image_bytes) × (length s.old ≡ image_bytes) }
    ensures { (length s.new ≡ image_bytes)
        × (take (at + 32) s.new ≡ take at s.old ++ v) }
{
    put(s, at, 32, &v);
}

// A number by itself: for `put` of its bytes LLVM would find no copy of 8 bytes.
fn put_number(s: &mut [u8], at: usize, x: u64)
    requires { (at + 8 ≤ image_bytes) × (length s.old ≡ image_bytes) }
    ensures { (length s.new ≡ image_bytes)
        × (take (at + 8) s.new ≡ take at s.old ++ le8 x) }
{
    let bytes = number_bytes(x);
    let mut i: usize = 0;
    while i < 8 {
        s[at + i] = bytes[i];
        i += 1;
    }
}

// The times, from byte 256 to the end.
fn put_times(s: &mut [u8], until: &[u64; 32])
    requires { length s.old ≡ image_bytes }
    ensures { (length s.new ≡ image_bytes)
        × (s.new ≡ take 256 s.old ++ bytes_of until.now) }
{
    let times: &[u64] = until;
    let mut i: usize = 0;
    while i < 32 {
        put_number(s, 256 + 8 * i, times[i]);
        i += 1;
    }
}

fn flag(b: bool) -> u8
    ensures { result ≡ one_if b }
{
    if b { 1 } else { 0 }
}

// The clock, whether the machine is started, and the objects: the first 32 bytes.
fn put_head(s: &mut [u8], ceiling: &[u8; 8], waiter: &[u8; 8], clock: u64, started: bool)
    requires { length s.old ≡ image_bytes }
    ensures { (length s.new ≡ image_bytes)
        × (take 32 s.new ≡ le8 clock ++ flags started ++ ceiling.now ++ waiter.now) }
{
    put_number(s, 0, clock);
    put8(s, 8, [flag(started), 0, 0, 0, 0, 0, 0, 0]);
    put8(s, 16, *ceiling);
    put8(s, 24, *waiter);
}

// The pending exceptions' 4 bytes, and those that are spare behind them.
fn exceptions(p: u32) -> [u8; 32]
    ensures { result ≡ exceptions p }
{
    let mut r = [0u8; 32];
    r[0] = (p % 256) as u8;
    r[1] = (p / 256 % 256) as u8;
    r[2] = (p / 65536 % 256) as u8;
    r[3] = (p / 16777216 % 256) as u8;
    r
}

// The tables of bytes, the pending exceptions, and what is spare: up to byte 255.
fn put_tables(
    s: &mut [u8],
    base: &[u8; 32],
    ready: &[u8; 32],
    delayed: &[u8; 32],
    held: &[u8; 32],
    way: &[u8; 32],
    pending: u32,
)
    requires { length s.old ≡ image_bytes }
    ensures { (length s.new ≡ image_bytes)
        × (take 256 s.new ≡ take 32 s.old ++ base.now ++ ready.now
        ++ delayed.now ++ held.now ++ way.now ++ exceptions pending ++ spare) }
{
    put32(s, 32, *base);
    put32(s, 64, *ready);
    put32(s, 96, *delayed);
    put32(s, 128, *held);
    put32(s, 160, *way);
    put32(s, 192, exceptions(pending));
    put32(s, 224, [0; 32]);
}

// The image of the state that the tables and the pending exceptions are, whatever the 512 bytes held. Bytes of another
// length are left as they are.
pub fn lay(
    image: &mut [u8],
    base: &[u8; 32],
    ready: &[u8; 32],
    delayed: &[u8; 32],
    held: &[u8; 32],
    way: &[u8; 32],
    until: &[u64; 32],
    ceiling: &[u8; 8],
    waiter: &[u8; 8],
    clock: u64,
    started: bool,
    pending: u32,
)
    ensures { image.new
        ≡ laid image.old (both
        (tables base.now ready.now delayed.now held.now way.now
        until.now ceiling.now waiter.now clock started) pending) }
{
    if image.len() != IMAGE_BYTES {
        return;
    }
    put_head(image, ceiling, waiter, clock, started);
    put_tables(image, base, ready, delayed, held, way, pending);
    put_times(image, until);
}
