// Document 01, "Ranges, bands, alerts, moves" (10.1, 11.2, 17.8, 18): the limits by value, each rounded once by (g),
// and what a move makes of them. P is a price; S_L, S_1 and the two maxima are rates; a range limit, the farthest limit
// and a band limit are each a `Limit`. Bare numbers of units are the monitored limit before the farthest one narrows it
// (fifty moves and a term of 30 days take it past every limit), `Limits`, the pair that a record holds and that the
// quick way of the bands makes at once, delta, and what a move makes of the pair: a sum that the sequence of calls
// keeps in range, and not the rule. `narrower` takes bare numbers, since the limits of a bond, which it serves too, are
// in hundredths of a per cent. A repo rate is a bare number, which may be negative. Valid statics and ranges are
// clauses of each function, and no fields of a struct: `Statics` is a type of the definitions, public functions take it by
// itself, and a struct around it would be copied (docs/DESIGN.md, "Records go by value").
#![tactic(auto)]

ghost use Rattle.std.specs.Prelude.{◌≡◌, true, ◌-◌, ◌≤◌};
ghost use Rattle.std.specs.Int.Signed.{mag};
ghost use Rattle.paper.specs.Lists.{three};
ghost use Rattle.paper.specs.Numbers.{one_in_bp, price_most, rate_most, limit_most, moves_most, term_days_most, repo_most};
ghost use Rattle.paper.specs.Ranges.{valid_statics, grid_of, valid_term, term_at};
ghost use Rattle.paper.specs.Roundings.{rounded_to};
ghost use Rattle.paper_desk.specs.Limits.{limit_of, inward, shifted, range_limit, range_of, spread, monitored, band_limit};
ghost use Rattle.paper_desk.specs.Limits.{band_of, narrower_of, crossed, delta_of, one_more, count_of, range_moved_by};
ghost use Rattle.paper_desk.specs.Limits.{band_moved};
ghost use Rattle.limits.specs.Sides.{farthest_rate, farthest_limit, farthest_of, unmoved_spread, unmoved_limit};
ghost use Rattle.limits.specs.Sides.{unmoved_band};
ghost use Rattle.limits.specs.LimitRanges.{RangeInputs, BandInputs, TermInputs, EachOfThree, BandsAsked};
ghost use Rattle.limits.specs.LimitRanges.{UnmovedInputs, shifted_most};
ghost use Rattle.limits.specs.LimitBounds.{delta_most};

use inputs::grid_of;
use paper::{
    GRID_OF_ONE, GRID_TO_TEN, LOT_TO_TEN, Limit, Limits, Moves, ONE_IN_BP, ONE_IN_HUNDREDTHS,
    Price, Rate, Record, Side, Statics, Term, Way, YEAR_IN_DAY_BP,
};

// ---- ranges

// P·(1 ± rate), in ten-thousandths of a unit.
pub fn shifted(side: Side, p: Price, rate: Rate) -> u64
    requires { RangeInputs p rate }
    ensures { result ≡ (shifted side p.units rate.bp).num }
{
    match side {
        Side::Upper => p.units * (ONE_IN_BP + rate.bp),
        Side::Lower => p.units * (ONE_IN_BP - rate.bp),
    }
}

// So many ten-thousandths of a unit to the lot's grid, rounded that way. Each grid has an arm of its own, in which the
// machine divides by a constant.
fn bp_to_grid(way: Way, lot: u64, n: u64) -> u64
    requires { n ≤ shifted_most }
    ensures { result ≡ rounded_to way (grid_of lot) n one_in_bp }
{
    if lot <= 1 {
        return exact::rounded_to(way, GRID_OF_ONE, n, ONE_IN_BP);
    }
    if lot <= LOT_TO_TEN {
        return exact::rounded_to(way, GRID_TO_TEN, n, ONE_IN_BP);
    }
    exact::rounded_to(way, 1, n, ONE_IN_BP)
}

// P·(1 ± rate), rounded once, that way.
fn shifted_limit(way: Way, st: Statics, side: Side, p: Price, rate: Rate) -> Limit
    requires { RangeInputs p rate }
    ensures { result.units ≡ limit_of way st (shifted side p.units rate.bp) }
{
    Limit::of(bp_to_grid(way, st.lot, shifted(side, p, rate)))
}

// "Range of level L: P·(1 ± S_L)."; W-209: "ranges .. keep half up".
pub fn range_limit(st: Statics, side: Side, p: Price, rate: Rate) -> Limit
    requires { RangeInputs p rate }
    ensures { result.units ≡ range_limit st p.units rate.bp side }
{
    shifted_limit(Way::HalfUp, st, side, p, rate)
}

pub fn range_of(st: Statics, p: Price, rate: Rate) -> Limits
    requires { RangeInputs p rate }
    ensures { result ≡ range_of st p.units rate.bp }
{
    Limits {
        lower: range_limit(st, Side::Lower, p, rate).units,
        upper: range_limit(st, Side::Upper, p, rate).units,
    }
}

// ---- bands

// W-209: "Round the upper limit down and the lower limit up".
pub fn inward(side: Side) -> Way
    ensures { result ≡ inward side }
{
    match side {
        Side::Upper => Way::Down,
        Side::Lower => Way::Up,
    }
}

// PcH_max above, PcL_max below.
pub fn farthest_rate(st: Statics, side: Side) -> Rate
    requires { valid_statics st ≡ true }
    ensures { result.bp ≡ farthest_rate st side }
{
    match side {
        Side::Upper => Rate::of(st.pchmax),
        Side::Lower => Rate::of(st.pclmax),
    }
}

// x_pr ± e·S_1 in millionths, with e = 1 + 2·c·shift; below, "max(0, ..)".
pub fn spread(st: Statics, side: Side, s1: Rate, c: u64) -> u64
    requires st_value { valid_statics st ≡ true }
    requires bp_le_rate_most { (s1.bp ≤ rate_most) × (c ≤ moves_most) }
    ensures { result ≡ spread st side s1.bp c }
{
    let middle = ONE_IN_BP * st.xpr;
    let away = (ONE_IN_HUNDREDTHS + 2 * c * st.shift) * s1.bp;
    match side {
        Side::Upper => middle + away,
        Side::Lower => middle.saturating_sub(away),
    }
}

// "P·(1 + e·S_1/x_pr)·(1 + RRcH·k/36500)" above, "P·max(0, 1 - e·S_1/x_pr)·(1 + RRcL·k/36500)" below, rounded once,
// inward.
fn monitored_limit(st: Statics, side: Side, p: Price, s1: Rate, c: u64, k: u64, repo: i64) -> u64
    requires st_value { valid_statics st ≡ true }
    requires band_inputs { BandInputs p s1 c k repo }
    ensures { result ≡ limit_of (inward side) st (monitored st p.units s1.bp k repo c side) }
{
    let way = inward(side);
    let g = grid_of(st.lot);
    let days = exact::grow(YEAR_IN_DAY_BP, k, repo);
    let divisor = ONE_IN_BP * st.xpr * YEAR_IN_DAY_BP;
    exact::product_to_grid(way, g, p.units, spread(st, side, s1, c), days, divisor)
}

// The lesser of two upper limits, the greater of two lower ones.
pub fn narrower(side: Side, x: u64, y: u64) -> u64
    ensures { result ≡ narrower_of side x y }
{
    match side {
        Side::Upper => x.min(y),
        Side::Lower => x.max(y),
    }
}

// "P·(1 + PcH_max)" above, "P·(1 - PcL_max)" below, rounded inward.
fn farthest_limit(st: Statics, side: Side, p: Price) -> Limit
    requires st_value { valid_statics st ≡ true }
    requires units_le_price_most { p.units ≤ price_most }
    ensures { result.units ≡ farthest_limit st side p.units }
{
    shifted_limit(inward(side), st, side, p, farthest_rate(st, side))
}

// Both: they are the same in every term, so that the bands of three terms make them once.
fn farthest_of(st: Statics, p: Price) -> Limits
    requires st_value { valid_statics st ≡ true }
    requires units_le_price_most { p.units ≤ price_most }
    ensures { result ≡ farthest_of st p.units }
{
    Limits {
        lower: farthest_limit(st, Side::Lower, p).units,
        upper: farthest_limit(st, Side::Upper, p).units,
    }
}

// A band limit, by the farthest of its side. Each of the two is rounded and then one is taken: a rounding keeps order,
// so that this is the one that the paper takes, rounded once.
fn limit_within(
    st: Statics,
    side: Side,
    farthest: Limit,
    p: Price,
    s1: Rate,
    c: u64,
    k: u64,
    repo: i64,
) -> Limit
    requires st_value { valid_statics st ≡ true }
    requires band_inputs { BandInputs p s1 c k repo }
    requires units_value { farthest.units ≡ farthest_limit st side p.units }
    ensures { result.units ≡ band_limit st p.units s1.bp k repo c side }
{
    if st.monitoring {
        let monitored = monitored_limit(st, side, p, s1, c, k, repo);
        Limit::of(narrower(side, farthest.units, monitored))
    } else {
        farthest
    }
}

pub fn band_limit(st: Statics, side: Side, p: Price, s1: Rate, c: u64, k: u64, repo: i64) -> Limit
    requires st_value { valid_statics st ≡ true }
    requires band_inputs { BandInputs p s1 c k repo }
    ensures { result.units ≡ band_limit st p.units s1.bp k repo c side }
{
    limit_within(st, side, farthest_limit(st, side, p), p, s1, c, k, repo)
}

// A term's band, by the farthest limits: "c the moves of that side since the evaluation".
fn band_of(st: Statics, farthest: Limits, p: Price, s1: Rate, c: Moves, x: Term) -> Limits
    requires st_value { valid_statics st ≡ true }
    requires farthest_value { farthest ≡ farthest_of st p.units }
    requires term_inputs { TermInputs p s1 c x }
    ensures { result ≡ band_of st p.units s1.bp c x }
{
    let below = Limit::of(farthest.lower);
    let above = Limit::of(farthest.upper);
    Limits {
        lower: limit_within(st, Side::Lower, below, p, s1, c.lower, x.k, x.low).units,
        upper: limit_within(st, Side::Upper, above, p, s1, c.upper, x.k, x.high).units,
    }
}

// ---- the bands of three terms

// The spread before the first move, where e is 1: x_pr ± S_1 in basis points, a hundredth of it.
fn unmoved_spread(st: Statics, side: Side, s1: Rate) -> u64
    requires st_value { valid_statics st ≡ true }
    requires bp_le_rate_most { s1.bp ≤ rate_most }
    ensures { result ≡ unmoved_spread st side s1.bp }
{
    let middle = ONE_IN_HUNDREDTHS * st.xpr;
    match side {
        Side::Upper => middle + s1.bp,
        Side::Lower => middle.saturating_sub(s1.bp),
    }
}

// The monitored limit of P·(x_pr ± S_1), which is `unmoved`, by one division.
fn unmoved_limit(side: Side, g: u64, divisor: u64, unmoved: u64, k: u64, repo: i64) -> u64
    requires unmoved_inputs { UnmovedInputs g divisor unmoved }
    requires k_le_term_days_most { (k ≤ term_days_most) × (mag repo ≤ mag repo_most) }
    ensures { result ≡ unmoved_limit side g divisor unmoved k repo }
{
    exact::rounded_to(
        inward(side),
        g,
        unmoved * exact::grow(YEAR_IN_DAY_BP, k, repo),
        divisor,
    )
}

// A term's band of P·(x_pr - S_1) and P·(x_pr + S_1), by the farthest limits. It takes a few plain numbers, which the
// three terms share, since the statics would be copied for each.
fn unmoved_band(g: u64, divisor: u64, lower: u64, upper: u64, farthest: Limits, x: Term) -> Limits
    requires unmoved_inputs { UnmovedInputs g divisor lower × UnmovedInputs g divisor upper }
    requires x_value { valid_term x ≡ true }
    ensures { result ≡ unmoved_band g divisor lower upper farthest x }
{
    let below = unmoved_limit(Side::Lower, g, divisor, lower, x.k, x.low);
    let above = unmoved_limit(Side::Upper, g, divisor, upper, x.k, x.high);
    Limits {
        lower: narrower(Side::Lower, farthest.lower, below),
        upper: narrower(Side::Upper, farthest.upper, above),
    }
}

// The quick way of `bands_of`.
fn unmoved_bands(
    g: u64,
    divisor: u64,
    lower: u64,
    upper: u64,
    farthest: Limits,
    terms: [Term; Record::TERMS],
) -> [Limits; Record::TERMS]
    requires unmoved_inputs { UnmovedInputs g divisor lower × UnmovedInputs g divisor upper }
    requires each_of_three { EachOfThree (λ k. valid_term (term_at terms k) ≡ true) }
    ensures { result ≡ three (λ k. unmoved_band g divisor lower upper farthest (term_at terms k)) }
{
    // No `map` of the three terms: what a call asks is a fact of its place, which was not proved of a closure.
    [
        unmoved_band(g, divisor, lower, upper, farthest, terms[0]),
        unmoved_band(g, divisor, lower, upper, farthest, terms[1]),
        unmoved_band(g, divisor, lower, upper, farthest, terms[2]),
    ]
}

// Its plain way, which reads as the definition does.
fn bands_plainly(
    st: Statics,
    farthest: Limits,
    p: Price,
    s1: Rate,
    c: Moves,
    terms: [Term; Record::TERMS],
) -> [Limits; Record::TERMS]
    requires st_value { valid_statics st ≡ true }
    requires farthest_value { farthest ≡ farthest_of st p.units }
    requires bands_asked { BandsAsked p s1 c terms }
    ensures { result ≡ three (λ k. band_of st p.units s1.bp c (term_at terms k)) }
{
    // No `map`, as in `unmoved_bands`.
    [
        band_of(st, farthest, p, s1, c, terms[0]),
        band_of(st, farthest, p, s1, c, terms[1]),
        band_of(st, farthest, p, s1, c, terms[2]),
    ]
}

// The greatest P·(x_pr + S_1) that is multiplied with the days' factor in 64 bits: no price to 3,600 roubles has more.
const WHOLE_PRODUCT_MOST: u64 = 4_000_000_000_000;

// "For each of the three terms a lower and an upper band limit." An evaluation makes all six, by a quick way (W-214):
// before the first move e is 1, so that a hundred goes out of the spread and its divisor, and where 64 bits hold the
// product one division makes a limit. The wide product makes every other one.
pub fn bands_of(
    st: Statics,
    p: Price,
    s1: Rate,
    c: Moves,
    terms: [Term; Record::TERMS],
) -> [Limits; Record::TERMS]
    requires st_value { valid_statics st ≡ true }
    requires bands_asked { BandsAsked p s1 c terms }
    ensures { result ≡ three (λ k. band_of st p.units s1.bp c (term_at terms k)) }
{
    let farthest = farthest_of(st, p);
    let lower = p.units * unmoved_spread(st, Side::Lower, s1);
    let upper = p.units * unmoved_spread(st, Side::Upper, s1);
    if st.monitoring & (c.lower == 0) & (c.upper == 0) & (upper <= WHOLE_PRODUCT_MOST) {
        let divisor = ONE_IN_HUNDREDTHS * st.xpr * YEAR_IN_DAY_BP;
        return unmoved_bands(grid_of(st.lot), divisor, lower, upper, farthest, terms);
    }
    bands_plainly(st, farthest, p, s1, c, terms)
}

// 9: "a rounded lower band limit above its upper one".
pub fn is_crossed(x: Limits) -> bool
    ensures { result ≡ crossed x }
{
    x.upper < x.lower
}

// ---- moves

// "delta = 2·shift·S_1·P/x_pr"
pub fn delta(st: Statics, p: Price, s1: Rate) -> u64
    requires st_value { valid_statics st ≡ true }
    requires range_inputs { RangeInputs p s1 }
    ensures { result ≡ delta_of st s1.bp p.units }
{
    exact::rounded_to(
        Way::HalfUp,
        grid_of(st.lot),
        2 * st.shift * s1.bp * p.units,
        ONE_IN_BP * st.xpr,
    )
}

// "It adds one to c".
pub fn one_more(side: Side, c: Moves) -> Moves
    requires { count_of side c ≤ moves_most }
    ensures { result ≡ one_more side c }
{
    match side {
        Side::Upper => Moves {
            upper: c.upper + 1,
            ..c
        },
        Side::Lower => Moves {
            lower: c.lower + 1,
            ..c
        },
    }
}

pub fn count_of(side: Side, c: Moves) -> u64
    ensures { result ≡ count_of side c }
{
    match side {
        Side::Upper => c.upper,
        Side::Lower => c.lower,
    }
}

// "shifts its three range limits by delta, lower ones stopping at 0 (18.4)": one of them.
pub fn range_moved(side: Side, delta: u64, x: Limits) -> Limits
    requires { (delta ≤ delta_most) × (x.upper ≤ limit_most) }
    ensures { result ≡ range_moved_by side delta x }
{
    match side {
        Side::Upper => Limits {
            upper: x.upper + delta,
            ..x
        },
        Side::Lower => Limits {
            lower: x.lower.saturating_sub(delta),
            ..x
        },
    }
}

// "remakes that side's three band limits": that side of one anew, the other as it stands.
pub fn band_moved(side: Side, fresh: Limits, x: Limits) -> Limits
    ensures { result ≡ band_moved side fresh x }
{
    match side {
        Side::Upper => Limits {
            upper: fresh.upper,
            ..x
        },
        Side::Lower => Limits {
            lower: fresh.lower,
            ..x
        },
    }
}
