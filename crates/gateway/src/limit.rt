// "a fresh range limit from P, rate and side" and "a band limit from P, S_1, k, that side's repo rate, c and side": one
// call answers both, which differ in the values of a band's own, `Option<Grown>`, and in the rule that is asked. The side
// is C's number, since one that names no side is refused (6). It may use `inputs` for
// the statics, the grid and the side, and `limits` for the rules.
ghost use Rattle.std.specs.Prelude.{◌≡◌, true, ℕ};
ghost use Rattle.paper.specs.Ranges.{is_price, is_rate, valid_statics};
ghost use Rattle.paper_desk.specs.Gateway.{range_call, band_call};
ghost use Rattle.gateway.specs.LimitCalls.{own_in_range, limit_in_range, LimitInputs, limit_figure, limit_call};

use crate::answer::{figure, refusal};
use crate::price_and_rate::price_and_rate;
use paper::{GivenStatics, Price, Rate, Record, Side, Statics, Term, Verdict};

// What a band's limit takes beside P, S_1 and the side: the days, that side's repo rate, and its moves.
#[derive(Clone, Copy)]
pub struct Grown {
    pub k: u64,
    pub repo: i64,
    pub c: u64,
}

// A range's limit has no values of its own.
fn own_in_range(asked: Option<Grown>) -> bool
    ensures { result ≡ own_in_range asked }
{
    match asked {
        None => true,
        Some(x) => {
            (x.k <= Term::DAYS_MOST)
                & exact::is_within(Term::REPO_LEAST, Term::REPO_MOST, x.repo)
                & (x.c <= Record::MOVES_MOST)
        }
    }
}

// What is left to judge of a price in range and the other values, beside a rate in range.
fn limit_in_range(st: Statics, asked: Option<Grown>, p: Price, side: u64) -> bool
    requires { is_price p.units ≡ true }
    ensures { (rate : ℕ) → is_rate rate ≡ true → result ≡ limit_in_range st asked p.units rate side }
{
    (p.units % inputs::grid_of(st.lot) == 0) & own_in_range(asked) & inputs::valid_side(side)
}

fn limit_of(st: Statics, asked: Option<Grown>, side: Side, p: Price, rate: Rate) -> u64
    requires st_value { valid_statics st ≡ true }
    requires limit_inputs { LimitInputs asked p rate }
    ensures { result ≡ limit_figure st asked side p.units rate.bp }
{
    match asked {
        None => limits::range_limit(st, side, p, rate).units,
        Some(x) => limits::band_limit(st, side, p, rate, x.c, x.k, x.repo).units,
    }
}

// A static out of range is looked at before all else.
fn limit_answer(g: GivenStatics, asked: Option<Grown>, p: u64, rate: u64, side: u64) -> i64
    ensures { result ≡ limit_call g asked p rate side }
{
    if inputs::valid_given(g) {
        let st = inputs::statics_of(g);
        let Some((p, rate)) = price_and_rate(p, rate) else {
            return refusal(Verdict::OutOfRange);
        };
        if limit_in_range(st, asked, p, side) {
            return figure(limit_of(st, asked, Side::from(side), p, rate));
        }
        return refusal(Verdict::OutOfRange);
    }
    refusal(Verdict::AdmissionOutOfRange)
}

pub fn range_answer(g: GivenStatics, p: u64, rate: u64, side: u64) -> i64
    ensures { result ≡ range_call g p rate side }
{
    limit_answer(g, None, p, rate, side)
}

pub fn band_answer(g: GivenStatics, p: u64, s1: u64, k: u64, repo: i64, c: u64, side: u64) -> i64
    ensures { result ≡ band_call g p s1 k repo c side }
{
    limit_answer(g, Some(Grown { k, repo, c }), p, s1, side)
}
