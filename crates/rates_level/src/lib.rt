// The rate of a level (7.1). It and the level's minimum are rates; the tentative rate that it is made of is a bare
// number, whose range is its own. A level is its number, as the definitions have it and as C's callers give it; each
// public function asks `RateStatics` of the statics that it is handed, which are a type of the definitions.
#![tactic(auto)]

mod guess; // a guess of that rate

ghost use Rattle.std.specs.Prelude.{◌≡◌, ◌*◌, ◌≤◌};
ghost use Rattle.paper.specs.Lists.{for_levels};
ghost use Rattle.paper.specs.Numbers.{rate_most, ahead_most};
ghost use Rattle.paper_desk.specs.Rates.{minimum_of, covers, level_rate};
ghost use Rattle.rates_level.specs.RateStatics.{RateStatics, tentative_bound};
ghost use Rattle.rates_level.specs.Level.{level_of, squares_of, square_most, reaches, reach_most, least_reach};
ghost use Rattle.rates_level.specs.Level.{Sought, least_rate, guess_most};

use guess::{guess_of, guessed_steps};
use paper::{Rate, Record, Statics};

// A level's own statics: rh_L and S_L_min.
#[derive(Clone, Copy)]
pub struct Level {
    pub days: u64,
    pub minimum: Rate,
}

pub fn level_of(st: Statics, level: u64) -> Level
    requires { RateStatics st }
    ensures { result ≡ level_of st level }
{
    match level {
        1 => Level {
            days: st.rh1,
            minimum: Rate::of(st.min1),
        },
        2 => Level {
            days: st.rh2,
            minimum: Rate::of(st.min2),
        },
        _ => Level {
            days: st.rh3,
            minimum: Rate::of(st.min3),
        },
    }
}

// The two numbers under the roots of a requirement, of the tentative rate and of liq, each without its factor rh_L, so
// that the three levels share them.
#[derive(Clone, Copy)]
struct Squares {
    tentative: u64,
    liquidity: u64,
}

fn squares_of(st: Statics, m: u64, tentative: u64) -> Squares
    requires rate_statics { RateStatics st }
    requires m_le_ahead_most { (m ≤ ahead_most) × (tentative ≤ tentative_bound) }
    ensures { result ≡ squares_of st m tentative }
{
    Squares {
        tentative: tentative * tentative * (st.rh1 + m),
        liquidity: st.rh1 * (st.liq * st.liq),
    }
}

// Whether x ≥ sqrt(a) + sqrt(b). The products are formed only where a + b is at most x², so that they fit however large
// a is.
fn reaches(x: u64, a: u64, b: u64) -> bool
    requires { (x ≤ reach_most) × (a ≤ square_most) × (b ≤ square_most) }
    ensures { result ≡ reaches x a b }
{
    let square = x * x;
    if square < a + b {
        return false;
    }
    let rest = square - (a + b);
    4 * a * b <= rest * rest
}

// By halves: at most 14 comparisons between 0 and S_max. The library's `partition_point` searches a slice, and these
// are numbers.
fn least_reach(low: u64, high: u64, step: u64, a: u64, b: u64) -> u64
    requires { (low ≤ high) × (high * step ≤ reach_most) × (a ≤ square_most) × (b ≤ square_most) }
    ensures { result ≡ least_reach low high step a b }
{
    let mut from = low;
    let mut to = high;
    while from < to {
        let middle = from + (to - from) / 2;
        if reaches(middle * step, a, b) {
            to = middle;
        } else {
            from = middle + 1;
        }
    }
    from
}

// The rate of a level in basis points: a guess where it is enough (it covers the requirement or is S_max) and the least
// (a step less does not cover it, or is below the minimum), else the one that the plain search finds by its number of
// steps (W-214: "a second search may stand beside the plain one"). It is given of the statics only what it needs, since
// a call for each level would copy them all.
fn rate_near(h: u64, rh1: u64, smax: u64, own: Level, squares: Squares, guess: u64) -> u64
    requires sought { Sought h rh1 smax own squares }
    requires guess_le_guess_most { guess ≤ guess_most }
    ensures { (result ≡ least_rate h rh1 smax own squares) × (result ≤ rate_most) }
{
    let a = own.days * squares.tentative;
    let b = own.days * squares.liquidity;
    let steps = guessed_steps(guess, own.days);
    let minimum = own.minimum.bp;
    let v = minimum.max(smax.min(steps * h));
    let enough = (smax <= v) | reaches(v * rh1, a, b);
    let least = (v <= minimum) | !reaches(v.saturating_sub(h) * rh1, a, b);
    if enough & least {
        return v;
    }
    least_reach(minimum / h, smax / h, h * rh1, a, b) * h
}

pub fn level_rate(st: Statics, level: u64, m: u64, tentative: u64) -> Rate
    requires rate_statics { RateStatics st }
    requires m_le_ahead_most { (m ≤ ahead_most) × (tentative ≤ tentative_bound) }
    ensures { result.bp ≡ level_rate st tentative m level }
{
    let squares = squares_of(st, m, tentative);
    let guess = guess_of(st, m, tentative);
    Rate::of(rate_near(st.h, st.rh1, st.smax, level_of(st, level), squares, guess))
}

// Whether a rate v covers the requirement of a level.
pub fn covers(st: Statics, level: u64, m: u64, tentative: u64, v: Rate) -> bool
    requires rate_statics { RateStatics st }
    requires m_le_ahead_most { (m ≤ ahead_most) × (tentative ≤ tentative_bound) × (v.bp ≤ rate_most) }
    ensures { result ≡ covers st tentative m level v.bp }
{
    let own = level_of(st, level);
    let squares = squares_of(st, m, tentative);
    reaches(
        v.bp * st.rh1,
        own.days * squares.tentative,
        own.days * squares.liquidity,
    )
}

// The three rates.
pub fn rates_of(st: Statics, m: u64, tentative: u64) -> [Rate; Record::LEVELS]
    requires rate_statics { RateStatics st }
    requires m_le_ahead_most { (m ≤ ahead_most) × (tentative ≤ tentative_bound) }
    ensures { result ≡ for_levels (λ l. record { bp = level_rate st tentative m l }) }
{
    let squares = squares_of(st, m, tentative);
    let guess = guess_of(st, m, tentative);
    // `[1, 2, 3].map(..)` was not proved: that what it captures meets `Sought` is to be shown of each call.
    [
        Rate::of(rate_near(st.h, st.rh1, st.smax, level_of(st, 1), squares, guess)),
        Rate::of(rate_near(st.h, st.rh1, st.smax, level_of(st, 2), squares, guess)),
        Rate::of(rate_near(st.h, st.rh1, st.smax, level_of(st, 3), squares, guess)),
    ]
}

// The three minima, as rates.
pub fn minima(st: Statics) -> [Rate; Record::LEVELS]
    requires { RateStatics st }
    ensures { result ≡ for_levels (λ l. record { bp = minimum_of st l }) }
{
    [Rate::of(st.min1), Rate::of(st.min2), Rate::of(st.min3)]
}
