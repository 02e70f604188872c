// Where a pass over a tape's bytes puts what it finds: nowhere, where it only measures, or into two buffers.
ghost use Rattle.std.specs.Prelude.{◌≡◌, ℕ, ◌+◌, ◌%◌, ◌≤◌, List, [], ◌++◌, length, take, drop, option_to_list, ⊤};
ghost use Rattle.std.proofs.lemmas.List.Edits.{sets};
ghost use Rattle.salvage_marks.specs.Torn as torn;
ghost use Rattle.salvaging.specs.Lent.{Stored, stored_none, stored_more, stored_room};

use record::RECORD_BYTES;
use salvage_marks::Stretch;

pub(crate) trait Sink {
    // It has room for so many bytes and so many numbers.
    ghost Room: { Self → ℕ → ℕ → Type 0 };

    // From one state to another bytes were put from an index on, and numbers from another.
    ghost Puts: { Self → ℕ → ℕ → List ℕ → List ℕ → Self → Type 0 };

    // A record, and the stretch that ended before it, if one did.
    fn put(&mut self, w: usize, kept: &[u8], j: usize, ended: Option<Stretch>)
        requires { (length kept.now ≡ 16) × Room self.old (w + length kept.now) (j + length (torn.cells (option_to_list ended))) }
        ensures { Puts self.old w j kept.now (torn.cells (option_to_list ended)) self.new };

    ghost puts_none: { (s : Self) (w j : ℕ) → Puts s w j [] [] s };

    ghost puts_more: { (s t u : Self) (w j : ℕ) (p q x y : List ℕ) → Puts s w j p x t → Puts t (w + length p) (j + length x) q y u → Puts s w j (p ++ q) (x ++ y) u };

    ghost room_left: { (s t : Self) (w j n m k l : ℕ) (p x : List ℕ) → Puts s w j p x t → Room s n m → k ≤ n → l ≤ m → Room t k l };
}

// What is put is counted alone.
#[derive(Drop)]
pub(crate) struct Nowhere;

impl Sink for Nowhere {
    ghost Room = { λ s n m. ⊤ };

    ghost Puts = { λ s w j p x t. ⊤ };

    ghost puts_none = { λ s w j. tt };

    ghost puts_more = { λ s t u w j p q x y a b. tt };

    ghost room_left = { λ s t w j n m k l p x a b c d. tt };

    fn put(&mut self, _w: usize, _kept: &[u8], _j: usize, _ended: Option<Stretch>) {}
}

// How many numbers list a stretch, where there is one.
pub(crate) fn numbers(ended: Option<Stretch>) -> usize
    ensures { result ≡ length (torn.cells (option_to_list ended)) }
{
    match ended {
        Some(_) => 2,
        None => 0,
    }
}

// Lists a stretch, where there is one.
pub(crate) fn list_one(list: &mut [u64], j: usize, ended: Option<Stretch>)
    requires { j + length (torn.cells (option_to_list ended)) ≤ length list.old }
    ensures { list.new ≡ sets list.old j (torn.cells (option_to_list ended)) }
{
    match ended {
        Some(x) => {
            list[j] = x.first;
            list[j + 1] = x.size;
        }
        None => {}
    }
}

// A record's bytes at the front of a part. They are stored as one array: a slice that is copied asks whether the two
// lie apart.
fn store(part: &mut [u8], p: [u8; 16])
    requires { 16 ≤ length part.old }
    ensures { part.new ≡ p ++ drop 16 part.old }
{
    if let Some(cells) = part.first_chunk_mut::<RECORD_BYTES>() {
        *cells = p;
    }
}

// A kept record goes to the new tape.
fn keep(out: &mut [u8], w: usize, kept: &[u8])
    requires { (length kept.now ≡ 16) × (w + length kept.now ≤ length out.old) }
    ensures { out.new ≡ sets out.old w kept.now }
{
    if let Some(record) = kept.first_chunk::<RECORD_BYTES>() {
        store(&mut out[w..], *record);
    }
}

// The header goes to the new tape: 16 bytes, or none.
pub(crate) fn keep_head(out: &mut [u8], buf: &[u8], size: usize)
    requires { (size ≤ 16) × (size % 16 ≡ 0) × (size ≤ length out.old) × (size ≤ length buf.now) }
    ensures { out.new ≡ sets out.old 0 (take size buf.now) }
{
    if size == RECORD_BYTES {
        keep(out, 0, &buf[..RECORD_BYTES]);
    }
}

// The new tape and the list.
#[derive(Drop)]
pub(crate) struct Buffers<'a> {
    pub(crate) out: &'a mut [u8],
    pub(crate) list: &'a mut [u64],
}

impl<'a> Sink for Buffers<'a> {
    ghost Room = { λ s n m. (n ≤ length s.out.now) × (m ≤ length s.list.now) };

    ghost Puts = { λ s w j p x t. Stored s.out w p t.out × Stored s.list j x t.list };

    ghost puts_none = { λ s w j. (stored_none _ _, stored_none _ _) };

    ghost puts_more = { λ s t u w j p q x y a b. (stored_more _ _ _ _ _ _ a.0 b.0, stored_more _ _ _ _ _ _ a.1 b.1) };

    ghost room_left = { λ s t w j n m k l p x a b c d. (stored_room _ _ _ _ _ _ a.0 b.0 c, stored_room _ _ _ _ _ _ a.1 b.1 d) };

    fn put(&mut self, w: usize, kept: &[u8], j: usize, ended: Option<Stretch>) {
        list_one(self.list, j, ended);
        keep(self.out, w, kept);
    }
}
