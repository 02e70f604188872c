// What the ops of time do to the tables, in place: a delay, the clock. A function is lent the tables that it reads or
// changes, and no other. It answers the task that it releases, which is nobody: 0. (A Wake: crate kernel_wake. Set-up
// and objects: crates kernel_ops and kernel_close. When a command is refused: crate kernel_checks.)
#![tactic(auto)]

ghost use Rattle.std.specs.Prelude.{◌≡◌, cond, ◌+◌, ◌^◌, ltb};
ghost use Rattle.kernel_line.specs.Tables.{place, later, with_time};
ghost use Rattle.kernel_ready.specs.Ready.{runner_in, popped, to_tail};

// 4, with a time above the clock: into the delay line
fn sleep(ready: &mut [u8; 32], delayed: &mut [u8; 32], until: &mut [u64; 32], v: u64) -> u8
    ensures { let l = ready.old in let u = until.old in
        (result ≡ 0) × (ready.new ≡ popped l)
        × (delayed.new ≡ place (later u v) (runner_in l) delayed.old)
        × (until.new ≡ with_time u (runner_in l) v) }
{
    let r = kernel_ready::runner(ready);
    kernel_ready::take_front(ready);
    kernel_place::put_time(delayed, until, v, r);
    kernel_line::set_time(until, r, v);
    0
}

// 4, with a time not above the clock: the runner goes to the tail of its base
fn give_way(base: &[u8; 32], ready: &mut [u8; 32], held: &[u8; 32], ceiling: [u8; 8]) -> u8
    ensures { let l = ready.old in
        (result ≡ 0)
        × (ready.new ≡ to_tail base.now ceiling held.now (runner_in l) (popped l)) }
{
    let r = kernel_ready::runner(ready);
    kernel_ready::take_front(ready);
    kernel_ready::to_tail(ready, base, ceiling, held, r);
    0
}

// 4: by its time, the one or the other
pub fn delay(
    base: &[u8; 32],
    ready: &mut [u8; 32],
    delayed: &mut [u8; 32],
    held: &[u8; 32],
    until: &mut [u64; 32],
    ceiling: [u8; 8],
    clock: u64,
    v: u64,
) -> u8
    ensures { let l = ready.old in let d = delayed.old in let u = until.old in
        let tail = to_tail base.now ceiling held.now (runner_in l) (popped l) in
        (result ≡ 0) × (ready.new ≡ cond (ltb clock v) (popped l) tail)
        × (delayed.new ≡ cond (ltb clock v) (place (later u v) (runner_in l) d) d)
        × (until.new ≡ cond (ltb clock v) (with_time u (runner_in l) v) u) }
{
    if clock < v {
        sleep(ready, delayed, until, v)
    } else {
        give_way(base, ready, held, ceiling)
    }
}

// 6: the clock, some ticks later: as it was, where it would pass its end
pub fn advance(clock: &mut u64, ticks: u64) -> u8
    ensures { let n = clock.old in
        (result ≡ 0) × (clock.new ≡ cond (ltb (n + ticks) (2 ^ 64)) (n + ticks) n) }
{
    let now = *clock;
    if ticks <= 18446744073709551615 - now {
        *clock = now + ticks;
    }
    0
}
