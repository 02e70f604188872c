// What refuses a draw, but for a state that is not sound: the seed, the profile, and a machine that is not started.
#![tactic(auto)]

ghost use Rattle.std.specs.Prelude.{◌≡◌, leb};
ghost use Rattle.rules.specs.Line.{every};
ghost use Rattle.generator_draws.specs.Draw.{profile_of, good_profile, refused_by};

// No weight is above 100.
fn are_small(w: [u32; 8]) -> bool
    ensures { result ≡ every (λ x. leb x 100) w }
{
    let mut small = true;
    let mut i = 0;
    while i < 8 {
        small = small & (w[i] <= 100);
        i += 1;
    }
    small
}

// What 18 asks of a profile.
pub fn is_good(span: u32, w: [u32; 8]) -> bool
    ensures { result ≡ good_profile (profile_of span w) }
{
    (1 <= span) & (span <= 1000000) & are_small(w) & (1 <= w[1])
}

// 17, 18, 2 in this order, 0 for none.
pub fn refusal(started: bool, seed: u32, span: u32, weights: [u32; 8]) -> u8
    ensures { result ≡ refused_by started seed (profile_of span weights) }
{
    let good = is_good(span, weights);
    numbers::choose(
        seed == 0,
        17,
        numbers::choose(!good, 18, numbers::choose(!started, 2, 0)),
    )
}
