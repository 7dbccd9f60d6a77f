// "a level's rate from tentative, m and level". The level is C's number, since one that is none of the three is refused
// (6). The tentative rate is a bare number: its range, in steps of h and past
// S_max (W-208), is its own.
ghost use Rattle.std.specs.Prelude.{◌≡◌, true, ◌<◌};
ghost use Rattle.paper.specs.Ranges.{valid_statics};
ghost use Rattle.paper_desk.specs.Gateway.{level_in_range, level_figure, level_call};

use crate::answer::{figure, refusal};
use paper::{Day, GivenStatics, Rate, Statics, Verdict};

// The levels are 1, 2, 3.
const LEVEL_LAST: u64 = 3;

// The tentative rate is divided by the step, so that it is judged only behind valid statics.
fn level_in_range(st: Statics, tentative: u64, m: u64, level: u64) -> bool
    requires { 0 < st.h }
    ensures { result ≡ level_in_range st tentative m level }
{
    inputs::valid_tentative(st.h, tentative)
        & (m <= Day::AHEAD_MOST)
        & ((1 <= level) & (level <= LEVEL_LAST))
}

// With isEWMA no it is the minimum, whatever the tentative rate.
fn level_figure(st: Statics, tentative: u64, m: u64, level: u64) -> Rate
    requires st_value { valid_statics st ≡ true }
    requires level_value { level_in_range st tentative m level ≡ true }
    ensures { result.bp ≡ level_figure st tentative m level }
{
    if st.ewma {
        return rates_level::level_rate(st, level, m, tentative);
    }
    let own = rates_level::level_of(st, level);
    own.minimum
}

// A static out of range is looked at before all else.
pub fn level_answer(g: GivenStatics, tentative: u64, m: u64, level: u64) -> i64
    ensures { result ≡ level_call g tentative m level }
{
    if inputs::valid_given(g) {
        let st = inputs::statics_of(g);
        if level_in_range(st, tentative, m, level) {
            let rate = level_figure(st, tentative, m, level);
            return figure(rate.bp);
        }
        return refusal(Verdict::OutOfRange);
    }
    refusal(Verdict::AdmissionOutOfRange)
}
