// The rates (7.1): from the move of a day to its volatility, the tentative rate, and the rates that `rates_level` makes
// of it. The rules take statics and figures, and no security. A volatility is a bare number with its clause, as it is
// in a record and in the definitions.
#![tactic(auto)]

pub mod tentative; // the tentative rate
pub mod volatility; // the move and the volatility

ghost use Rattle.std.specs.Prelude.{◌≡◌, false, ◌≤◌};
ghost use Rattle.paper.specs.Numbers.{volatility_most};
ghost use Rattle.paper_desk.specs.Rates.{rated_by, modelled, unmodelled, figures_of, figures_by_volatility, move_too_large};
ghost use Rattle.rates_level.specs.RateStatics.{RateStatics};
ghost use Rattle.rates.specs.RateRanges.{RatedRanges, VolatilityRanges, FigureRanges};

use paper::{Figures, MILLIONTHS_IN_BP, Rate, Record, Statics, Tentative};

// Refusal 8.
pub fn move_too_large(st: Statics, r: u64) -> bool
    ensures { result ≡ move_too_large st r }
{
    st.ewma & (r > Record::VOLATILITY_MOST)
}

// What t makes of the tentative rate, and that of the rates of the levels.
fn rated(st: Statics, m: u64, t: u64, s: u64, old: Tentative) -> Figures
    requires { RatedRanges st m t old }
    ensures { result ≡ rated_by st m t s old }
{
    let tentative = tentative::tentative_after(st.h, st.wait, t, old);
    let rates = rates_level::rates_of(st, m, tentative.bp);
    Figures {
        s,
        tentative,
        rates,
    }
}

fn modelled(st: Statics, b: u64, m: u64, s1: Rate, r: u64, s: u64, old: Tentative) -> Figures
    requires figure_ranges { FigureRanges st m s1 s old }
    requires r_le_volatility_most { r ≤ volatility_most }
    ensures { result ≡ modelled st b m s1.bp r s old }
{
    let model = volatility::model_of(st);
    let carried = volatility::choose(model, b, MILLIONTHS_IN_BP * s1.bp, r, s);
    let t = tentative::tentative_rate_of(st, carried.replaced, r, carried.s);
    rated(st, m, t, carried.s, old)
}

fn unmodelled(st: Statics, s: u64, old: Tentative) -> Figures
    requires { RateStatics st }
    ensures { result ≡ unmodelled st s old }
{
    let rates = rates_level::minima(st);
    Figures {
        s,
        tentative: old,
        rates,
    }
}

// The figures of an evaluation whose move is not too large.
pub fn figures_of(st: Statics, b: u64, m: u64, s1: Rate, r: u64, s: u64, old: Tentative) -> Figures
    requires figure_ranges { FigureRanges st m s1 s old }
    requires r_value { move_too_large st r ≡ false }
    ensures { result ≡ figures_of st b m s1.bp r s old }
{
    if st.ewma {
        modelled(st, b, m, s1, r, s, old)
    } else {
        unmodelled(st, s, old)
    }
}

// The figures of a security whose volatility is given (W-206): by the same rules, with no move and no replacement.
pub fn figures_by_volatility(st: Statics, m: u64, s: u64, old: Tentative) -> Figures
    requires { VolatilityRanges st m s old }
    ensures { result ≡ figures_by_volatility st m s old }
{
    if st.ewma {
        rated(st, m, tentative::tentative_rate(st, s), s, old)
    } else {
        unmodelled(st, s, old)
    }
}
