// Gets what can be got from a torn tape: the records that stand on it go to a new tape, and every stretch of bytes
// that makes none is listed by first byte and length.
//
// `salvage` takes a whole tape. A tape of any length comes in pieces: `at_first`, then `feed` and `move_down` for each
// piece, then `last_stretch`. No public function has a `requires`. salvage_marks/specs says what each answer is.
#![tactic(auto)]

mod sinks;

ghost use Rattle.std.specs.Prelude.{◌≡◌, ◌&&◌, length, leb, drop, ◌+◌, ◌≤◌, ◌<◌, ◌^◌};
ghost use Rattle.std.proofs.lemmas.List.Edits.{sets};
ghost use Rattle.salvage_marks.specs.Torn as torn;
ghost use Rattle.salvage_marks.specs.Pieces as pieces;
ghost use Rattle.salvaging.specs.Walk as walk;

use crate::sinks::{Buffers, Nowhere, Sink, keep_head, list_one, numbers};
use record::RECORD_BYTES;
use record_bytes::{is_command, is_header};
use rules::Refusal;
pub use salvage_marks::{Fed, Salvaged, Stretch, Torn};

// What a pass over bytes comes to: how many are decided, where the open stretch begins, the bytes kept and the numbers
// listed.
#[derive(Clone, Copy)]
struct Passed {
    done: usize,
    from: u64,
    kept: usize,
    cells: usize,
}

// Whether a header stands at byte 0 is asked once, before the loop: that looks for command records only, by a test that
// is small enough to stand inside it.
// Kept (plain): a size that is added and copied by; as a flag it is asked only for `headed`.
fn head(buf: &[u8], place: u64) -> usize
    ensures { result ≡ walk.head_size place buf.now }
{
    if place != 0 {
        return 0;
    }
    if buf.len() < RECORD_BYTES {
        return 0;
    }
    if is_header(&buf[0..RECORD_BYTES]) {
        return RECORD_BYTES;
    }
    0
}

// The stretch from a place up to another, if it has a byte.
fn stretch(from: u64, at: u64) -> Option<Stretch>
    ensures { result ≡ pieces.stretch_of from at }
{
    if from < at {
        Some(Stretch {
            first: from,
            size: at - from,
        })
    } else {
        None
    }
}

// Long enough for any so many bytes, whatever they are.
fn long_enough(many: usize, n: usize, m: usize) -> bool
    ensures { result ≡ pieces.long_enough many n m }
{
    (many <= n) & (many / 8 <= m)
}

// Bytes of a tape that are looked at: they begin at a place, every byte since `begin` was dropped, and at their front
// stands a header of so many bytes that is kept, or none.
#[derive(Clone, Copy)]
struct Seen<'a> {
    buf: &'a [u8],
    place: u64,
    begin: u64,
    head: usize,
    ghost opened: { begin ≤ place },
    ghost ends: { place + length buf.now < 2 ^ 64 },
    ghost headed: { head ≡ walk.head_size place buf.now },
}

impl<'a> Seen<'a> {
    fn new(t: Torn, buf: &'a [u8]) -> Seen<'a>
        requires { t.place + length buf.now ≤ pieces.last_place }
        ensures { (result.buf.now ≡ buf.now) × (result.place ≡ t.place) × (result.begin ≡ pieces.opened t) }
    {
        let head = head(buf, t.place);
        Seen {
            buf,
            place: t.place,
            begin: t.from.min(t.place),
            head,
        }
    }

    // A pass: behind the header each record and each stretch that ends goes to the sink.
    // Kept (plain): the loop goes on by a record's 16 bytes or by one, as it finds them, so it counts its index itself.
    fn pass<S: Sink>(&self, sink: &mut S) -> Passed
        requires { S.Room sink.old (walk.passed_of self.now.place self.now.begin self.now.buf.now).kept
            (walk.passed_of self.now.place self.now.begin self.now.buf.now).cells }
        ensures passed { result ≡ walk.passed_of self.now.place self.now.begin self.now.buf.now }
        ensures put { S.Puts sink.old self.now.head 0
            (torn.pick (walk.to_go self.now.buf.now self.now.head) (drop self.now.head self.now.buf.now))
            (torn.cells (pieces.ended (self.now.begin + self.now.head) (self.now.place + self.now.head) (walk.to_go self.now.buf.now self.now.head)))
            sink.new }
    {
        let mut at = self.head;
        let mut from = self.begin + self.head as u64;
        let mut kept = self.head;
        let mut cells: usize = 0;
        while RECORD_BYTES <= self.buf.len() - at {
            let end = at + RECORD_BYTES;
            let record = &self.buf[at..end];
            if is_command(record) {
                let ended = stretch(from, self.place + at as u64);
                sink.put(kept, record, cells, ended);
                cells += numbers(ended);
                kept += RECORD_BYTES;
                at = end;
                from = self.place + end as u64;
            } else {
                at += 1; // no record begins here
            }
        }
        Passed {
            done: at,
            from,
            kept,
            cells,
        }
    }

    // What a pass would come to; nothing is written.
    fn measure(&self) -> Passed
        ensures { result ≡ walk.passed_of self.now.place self.now.begin self.now.buf.now }
    {
        self.pass(&mut Nowhere)
    }

    // What is to be written and listed fits for sure, or is measured and fits.
    fn fits(&self, n: usize, m: usize) -> bool
        ensures { result
            ≡ (leb (walk.passed_of self.now.place self.now.begin self.now.buf.now).kept n
            && leb (walk.passed_of self.now.place self.now.begin self.now.buf.now).cells m) }
    {
        if long_enough(self.buf.len(), n, m) {
            return true;
        }
        let p = self.measure();
        (p.kept <= n) & (p.cells <= m)
    }

    // The header and the pass, into two buffers that have room.
    fn write(&self, out: &mut [u8], list: &mut [u64]) -> Passed
        requires { ((walk.passed_of self.now.place self.now.begin self.now.buf.now).kept ≤ length out.old)
            × ((walk.passed_of self.now.place self.now.begin self.now.buf.now).cells ≤ length list.old) }
        ensures passed { result ≡ walk.passed_of self.now.place self.now.begin self.now.buf.now }
        ensures out { out.new
            ≡ sets out.old 0 (torn.pick (walk.marked_at self.now.place self.now.buf.now) self.now.buf.now) }
        ensures list { list.new
            ≡ sets list.old 0
            (torn.cells (pieces.ended self.now.begin self.now.place (walk.marked_at self.now.place self.now.buf.now))) }
    {
        keep_head(out, self.buf, self.head);
        let mut both = Buffers { out, list };
        self.pass(&mut both)
    }
}

// ---- In pieces

// Before the first byte.
pub fn at_first() -> Torn
    ensures { result ≡ pieces.at_first }
{
    Torn {
        place: 0,
        from: 0,
        headed: false,
    }
}

// A piece more: `buf` is the held bytes and the piece behind them. What is kept of it stands at the front of `out`, the
// stretches that ended at the front of `list`; what `buf` holds behind `done` the caller puts in front of its next
// piece. It is refused where that does not fit or a place would pass 2^64; then nothing is written.
pub fn feed(t: Torn, buf: &[u8], out: &mut [u8], list: &mut [u64]) -> Result<Fed, Refusal>
    ensures { pieces.FedTo t buf.now out.old list.old result out.new
        list.new }
{
    if u64::MAX - t.place < buf.len() as u64 {
        return Err(Refusal::Room);
    }
    let seen = Seen::new(t, buf);
    if !seen.fits(out.len(), list.len()) {
        return Err(Refusal::Room);
    }
    let p = seen.write(out, list);
    let torn = Torn {
        place: t.place + p.done as u64,
        from: p.from,
        headed: t.headed | (seen.head == RECORD_BYTES),
    };
    Ok(Fed {
        torn,
        done: p.done,
        kept: p.kept,
        cells: p.cells,
    })
}

// Moves the bytes of a buffer from `done` up to `n` to its front; how many they are. Where there are none such, nothing
// is moved, and 0.
pub fn move_down(buf: &mut [u8], done: usize, n: usize) -> usize
    ensures { pieces.MovedTo buf.old done n result buf.new }
{
    if n < done {
        return 0;
    }
    if buf.len() < n {
        return 0;
    }
    buf.copy_within(done..n, 0);
    n - done
}

// The end of the tape, with so many bytes held: the last dropped stretch, of size 0 where there is none.
// Kept (promise): where nothing is open the size is 0, and the place stands all the same.
#[tactic(auto, unfolding(salvage_marks::specs::Pieces::last_of))]
pub fn last_stretch(t: Torn, held: usize) -> Stretch
    ensures { result ≡ pieces.last_of t held }
{
    let first = t.from.min(t.place);
    let end = t.place.saturating_add(held as u64);
    Stretch {
        first,
        size: end - first,
    }
}

// ---- A whole tape

// Writes the kept records to `out` and the dropped stretches to `list`, two numbers each, from their fronts on. What
// they take is measured first: refused where the one or the other does not fit, and then nothing is written.
pub fn salvage(tape: &[u8], out: &mut [u8], list: &mut [u64]) -> Result<Salvaged, Refusal>
    ensures { torn.SalvagedTo tape.now out.old list.old result out.new
        list.new }
{
    let seen = Seen::new(at_first(), tape);
    let m = seen.measure();
    let last = stretch(m.from, tape.len() as u64);
    if out.len() < m.kept {
        return Err(Refusal::Room);
    }
    if list.len() < m.cells + numbers(last) {
        return Err(Refusal::Room);
    }
    let p = seen.write(out, list);
    list_one(list, p.cells, last);
    Ok(Salvaged {
        records: p.kept / RECORD_BYTES,
        stretches: (p.cells + numbers(last)) / 2,
        headed: seen.head == RECORD_BYTES,
    })
}
