// Which reason is named for each figure of an accepted evaluation: the first whose condition holds.
ghost use Rattle.std.specs.Prelude.{◌≡◌, true, ◌+◌, ◌^◌, ◌≤◌, ◌<◌};
ghost use Rattle.paper.specs.Numbers.{ahead_most, rate_most, volatility_most};
ghost use Rattle.paper.specs.Ranges.{valid_statics};
ghost use Rattle.paper_desk.specs.Rates.{level_rate};
ghost use Rattle.rates_level.specs.RateStatics.{tentative_bound};
ghost use Rattle.paper_reasons.specs.Reasons.{first_that_holds, weight_given, weight_reasons, replacement_was};
ghost use Rattle.paper_reasons.specs.Reasons.{replacement_reasons, tentative_did, tentative_reasons, level_set_by};
ghost use Rattle.paper_reasons.specs.Reasons.{level_reason};
ghost use Rattle.paper_reasons.specs.Figures.{replacement_taken};
ghost use Rattle.record_reasons.specs.Reasoned.{reason_from, deciding_at, unmodelled_with, modelled_with, reasons_at};
ghost use Rattle.record_reasons.specs.Reasoned.{Accepted};

use evaluation::PriceFigures;
use paper::{Day, MILLIONTHS_IN_BP, Model, Price, Rate, Record, Statics, Tentative};
use paper_reasons::{
    Deciding, LevelReason, PriceReason, Reasons, ReplacementReason, TentativeReason, WeightReason,
};
use rates::tentative::tentative_rate_of;
use rates::volatility::{model_of, move_of, replacement, weight_of, weighted};
use rates_level::{covers, level_of};
use record_writing::figures::Made;

// "(close, bid, ask, or yesterday)"
fn price_reason(previous: Price, f: PriceFigures) -> PriceReason
    ensures { result ≡ reason_from previous.units f }
{
    let p = evaluation::between(f.bid, f.close, f.ask);
    if (0 < f.weight) & (p == f.close) {
        return PriceReason::Close;
    }
    if (0 < f.bid) & (p == f.bid) {
        return PriceReason::Bid;
    }
    if (0 < f.ask) & (p == f.ask) {
        return PriceReason::Ask;
    }
    if !(0 < f.weight) & (p == previous.units) {
        return PriceReason::Yesterday;
    }
    PriceReason::None
}

// "a is 0 when b > 1; else a_up when r > s, a_down otherwise."
fn weight_reason(b: u64, r: u64, s: u64) -> WeightReason
    ensures { result ≡ first_that_holds WeightReason.None (weight_given b r s) weight_reasons }
{
    if 1 < b {
        return WeightReason::Zero;
    }
    if s < r {
        return WeightReason::Up;
    }
    WeightReason::Down
}

fn replacement_reason(won: bool) -> ReplacementReason
    ensures { result ≡ first_that_holds ReplacementReason.None (replacement_was won) replacement_reasons }
{
    if won {
        return ReplacementReason::Yes;
    }
    ReplacementReason::No
}

// Rose, fell, waited or was level.
fn tentative_reason(h: u64, wait: u64, t: u64, old: Tentative) -> TentativeReason
    requires { (old.bp + h < 2 ^ 64) × (t + h < 2 ^ 64) × (old.age + 1 < 2 ^ 64) }
    ensures { result ≡ first_that_holds TentativeReason.None (tentative_did h wait t old) tentative_reasons }
{
    if old.bp + h <= t {
        return TentativeReason::Rose;
    }
    if (t + h <= old.bp) & (wait <= old.age + 1) {
        return TentativeReason::Fell;
    }
    if t + h <= old.bp {
        return TentativeReason::Waited;
    }
    TentativeReason::Level
}

// Whether the rate of a level is the least multiple of h that covers the requirement, which S_max covers: it covers it,
// and a step below does not. A level is its number, as the definitions (`level_rate`, `level_reason`) have it.
fn is_least(st: Statics, level: u64, m: u64, tentative: u64, rate: Rate) -> bool
    requires st_value { valid_statics st ≡ true }
    requires m_le_ahead_most { (m ≤ ahead_most) × (tentative ≤ tentative_bound) }
    requires bp_value { rate.bp ≡ level_rate st tentative m level }
    ensures { result ≡ level_set_by st tentative m level rate.bp LevelReason.Requirement }
{
    if !covers(st, level, m, tentative, rate) {
        return false;
    }
    if rate.bp == 0 {
        return true;
    }
    let below = Rate::of(rate.bp - st.h);
    !covers(st, level, m, tentative, below)
}

// The requirement, the minimum or the maximum.
fn level_reason(st: Statics, level: u64, m: u64, tentative: u64, rate: Rate) -> LevelReason
    requires st_value { (valid_statics st ≡ true) × (st.ewma ≡ true) }
    requires m_le_ahead_most { (m ≤ ahead_most) × (tentative ≤ tentative_bound) }
    requires bp_value { rate.bp ≡ level_rate st tentative m level }
    ensures { result ≡ level_reason st tentative m level rate.bp }
{
    if is_least(st, level, m, tentative, rate) {
        return LevelReason::Requirement;
    }
    let own = level_of(st, level);
    if rate.bp == own.minimum.bp {
        return LevelReason::Minimum;
    }
    LevelReason::Maximum
}

// With isEWMA no: "each level names the minimum, and weight, replacement and tentative rate none".
fn unmodelled(price: PriceReason) -> Reasons
    ensures { result ≡ unmodelled_with price }
{
    Reasons {
        price,
        weight: WeightReason::None,
        replacement: ReplacementReason::None,
        tentative: TentativeReason::None,
        level1: LevelReason::Minimum,
        level2: LevelReason::Minimum,
        level3: LevelReason::Minimum,
        figures: None,
    }
}

// The y of the paper where it is taken, and 0 where it is not.
fn replacement_taken(m: Model, b: u64, r: u64, last: u64) -> u64
    requires { (0 < m.q) × (r ≤ volatility_most) }
    ensures { result ≡ replacement_taken m b r last }
{
    if (b <= 1) & (last < r) {
        return replacement(m.q, r);
    }
    0
}

// The figures that decided, with isEWMA yes: s is the one that was made, and y won where it is above x.
fn deciding(old: Record, d: Day, new: Made) -> Deciding
    requires accepted { Accepted old d new }
    requires ewma_value { old.statics.ewma ≡ true }
    ensures { result ≡ deciding_at old d new.p1.units }
{
    let st = old.statics;
    let last = old.rates;
    let p1 = old.p1;
    let p2 = old.p2;
    let p = new.p1;
    let r = move_of(p1, p2, p);
    let m = model_of(st);
    let x = weighted(weight_of(m, d.b, r, old.s), old.s, r);
    let y = replacement_taken(m, d.b, r, MILLIONTHS_IN_BP * last[0].bp);
    Deciding {
        r,
        before: old.s,
        x,
        y,
        s: new.s,
        t: tentative_rate_of(st, x < y, r, new.s),
    }
}

// With isEWMA yes, of the record before and what was made of it.
fn modelled(price: PriceReason, old: Record, d: Day, new: Made) -> Reasons
    requires accepted { Accepted old d new }
    requires ewma_value { old.statics.ewma ≡ true }
    ensures { result ≡ modelled_with price old d new.p1.units }
{
    let st = old.statics;
    let tentative = old.tentative;
    let made = new.rates;
    let after = new.tentative;
    let f = deciding(old, d, new);
    Reasons {
        price,
        weight: weight_reason(d.b, f.r, old.s),
        replacement: replacement_reason(f.x < f.y),
        tentative: tentative_reason(st.h, st.wait, f.t, tentative),
        level1: level_reason(st, 1, d.m, after.bp, made[0]),
        level2: level_reason(st, 2, d.m, after.bp, made[1]),
        level3: level_reason(st, 3, d.m, after.bp, made[2]),
        figures: Some(f),
    }
}

// The reasons of an evaluation that is accepted: of the record before, what was made of it, and the figures that its
// price was chosen from.
pub fn reasons_of(old: Record, d: Day, new: Made, figures: PriceFigures) -> Reasons
    requires { Accepted old d new }
    ensures { result ≡ reasons_at old d new.p1.units figures }
{
    let previous = old.p1;
    let price = price_reason(previous, figures);
    if old.statics.ewma {
        return modelled(price, old, d, new);
    }
    unmodelled(price)
}
