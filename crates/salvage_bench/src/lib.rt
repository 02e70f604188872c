// What bench/salvage times beside C: a whole tape salvaged, and a piece. The library exports nothing to C for it.
#![tactic(auto)]

ghost use Rattle.std.specs.Prelude.{◌≡◌};
ghost use Rattle.salvage_bench.specs.Told.{told_of, Whole, start, Piece};

use salvaging::Torn;

// A whole tape: the code.
#[unsafe(no_mangle)]
pub extern "C" fn salvage_bench_whole(tape: &[u8], out: &mut [u8], list: &mut [u64]) -> u8
    ensures { Whole tape.now out.old list.old result out.new
        list.new }
{
    match salvaging::salvage(tape, out, list) {
        Ok(_) => 0,
        Err(refusal) => refusal.number(),
    }
}

fn tell(torn: Torn, kept: usize, cells: usize, told: &mut [u64])
    ensures { told.new ≡ told_of torn kept cells told.old }
{
    if told.len() < 4 {
        return;
    }
    told[0] = torn.place;
    told[1] = torn.from;
    told[2] = kept as u64;
    told[3] = cells as u64;
}

// A piece: the code; place, open stretch, bytes and numbers go to `told`: of one that is refused the place and the open
// stretch as they were, and zeros.
#[unsafe(no_mangle)]
pub extern "C" fn salvage_bench_piece(
    place: u64,
    from: u64,
    buf: &[u8],
    out: &mut [u8],
    list: &mut [u64],
    told: &mut [u64],
) -> u8
    ensures { Piece (start place from) buf.now out.old list.old
        told.old result out.new list.new told.new }
{
    let t = Torn {
        place,
        from,
        headed: false,
    };
    match salvaging::feed(t, buf, out, list) {
        Ok(fed) => {
            tell(fed.torn, fed.kept, fed.cells, told);
            0
        }
        Err(refusal) => {
            tell(t, 0, 0, told);
            refusal.number()
        }
    }
}
