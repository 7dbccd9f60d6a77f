// Document 02, W-206: the public call for a bond, by value. Nothing is stored. It judges what is given, asks the rules
// for the rates (`rates`), for Carry and for the limits, and puts the answer together.
#![tactic(auto)]

mod flows; // the cash flows, and Carry
mod limit; // the limits of a term, on the book and off it

ghost use Rattle.std.specs.Prelude.{◌≡◌, true, ◌<◌};
ghost use Rattle.std.specs.List.{list_any};
ghost use Rattle.paper.specs.Ranges.{valid_term};
ghost use Rattle.paper_bonds.specs.Bonds.{bond_given, bond_statics, terms_of, valid_numbers, valid_bond, flows_of, gross_of};
ghost use Rattle.paper_bonds.specs.Bonds.{limits_of, all_limits, is_crossed, refused_bond, bond_answer};
ghost use Rattle.bond.specs.PriceKnown.{PriceKnown, Figured};

use crate::flows::{carry_of, flows_valid};
use crate::limit::{is_crossed, limits_of};
use interest_terms::term_of;
use paper::{
    BondScale, Day, GivenStatics, Limits, ONE_IN_PER_CENT_HUNDREDTHS, Price, Rate, Record, Statics,
    Tentative, Term, Verdict,
};
use paper_bonds::{Bond, BondAnswer, BondLimits, BondStatics};

// ---- what is given

// The rows of the table of statics that a bond has: no rule of a bond reads the others, which stay at the least of
// their ranges.
#[tactic(auto, unfolding(paper_bonds::specs::Bonds::bond_given))]
fn given_of(g: BondStatics) -> GivenStatics
    ensures { result ≡ bond_given g }
{
    GivenStatics {
        h: g.h,
        q: g.q,
        wait: g.wait,
        rh1: g.rh1,
        rh2: g.rh2,
        rh3: g.rh3,
        liq: g.liq,
        min1: g.min1,
        min2: g.min2,
        min3: g.min3,
        smax: g.smax,
        xpr: g.xpr,
        pchmax: g.pchmax,
        pclmax: g.pclmax,
        monitoring: g.monitoring,
        ewma: g.ewma,
        ..GivenStatics::LEAST
    }
}

// The three terms: a repo band that was worked out counts as one that is given.
fn terms_of(b: Bond) -> [Term; Record::TERMS]
    ensures { result ≡ terms_of b }
{
    let first = b.first;
    let second = b.second;
    let third = b.third;
    [term_of(first), term_of(second), term_of(third)]
}

// What is given beside the statics, the terms and REPORate. The tentative rate is judged only behind valid statics,
// whose step is not 0.
fn valid_numbers(b: Bond, st: Statics) -> bool
    requires { (st ≡ bond_statics b) × (0 < st.h) }
    ensures { result ≡ valid_numbers b }
{
    (b.m <= Day::AHEAD_MOST)
        & ((1 <= b.net) & (b.net <= Bond::NET_MOST))
        & (b.face <= Bond::MONEY_MOST)
        & (b.accrued <= Bond::MONEY_MOST)
        & (b.s <= Record::VOLATILITY_MOST)
        & inputs::valid_tentative(st.h, b.tentative.bp)
        & (b.tentative.age <= Record::AGE_MOST)
}

fn bond_valid(b: Bond) -> bool
    ensures { result ≡ valid_bond b }
{
    let statics = b.statics;
    let given = given_of(statics);
    if inputs::valid_given(given) {
        return valid_numbers(b, inputs::statics_of(given))
            & inputs::valid_terms(terms_of(b))
            & exact::is_within(Term::REPO_LEAST, Term::REPO_MOST, b.repo);
    }
    false
}

// ---- the figures

// "P_sttlmnt/100·Facevalue + НКД", half up to a unit.
fn gross_of(b: Bond) -> u64
    requires { valid_bond b ≡ true }
    ensures { result ≡ gross_of b }
{
    exact::half_up(b.net * b.face, ONE_IN_PER_CENT_HUNDREDTHS) + b.accrued
}

// A bond that is not refused 6, 17 or 7, with its cash flows, and what its limits are worked out from: its statics, P
// and S_1.
#[derive(Clone, Copy)]
struct Evaluated<'a> {
    b: Bond,
    flows: &'a [i64],
    st: Statics,
    p: Price,
    s1: Rate,
    ghost price_known: { PriceKnown b flows.now },
    ghost figured: { Figured b st p s1 },
}

impl Evaluated<'_> {
    // The limits of a term, with the Carry of the cash flows up to it.
    fn limits_of(&self, x: Term) -> BondLimits
        requires { valid_term x ≡ true }
        ensures { result ≡ limits_of self.now.b (flows_of self.now.flows.now) x }
    {
        let b = self.b;
        let carry = carry_of(self.flows, x.k, b.repo);
        let scale = BondScale {
            carry,
            accrued: b.accrued,
            face: b.face,
            repo: b.repo,
        };
        limits_of(scale, self.st, self.p, self.s1, x)
    }

    fn all_limits(&self) -> [BondLimits; Record::TERMS]
        ensures { result ≡ all_limits self.now.b (flows_of self.now.flows.now) }
    {
        // A closure of `map` or `from_fn` would have to say which term it gets: each of these three is valid.
        let terms = terms_of(self.b);
        [
            self.limits_of(terms[0]),
            self.limits_of(terms[1]),
            self.limits_of(terms[2]),
        ]
    }
}

// Whether the limits of some term are crossed (9).
fn some_crossed(limits: &[BondLimits]) -> bool
    ensures { result ≡ list_any is_crossed limits.now }
{
    limits.iter().any(|x| is_crossed(*x))
}

// ---- the answer

// "A refusal returns its number with all figures 0."
#[tactic(auto, unfolding(paper_bonds::specs::Bonds::refused_bond))]
pub fn refused(verdict: Verdict) -> BondAnswer
    ensures { result ≡ refused_bond verdict }
{
    let none = Limits { lower: 0, upper: 0 };
    BondAnswer {
        verdict,
        gross: 0,
        tentative: Tentative { bp: 0, age: 0 },
        rates: [Rate { bp: 0 }; Record::LEVELS],
        limits: [BondLimits {
            band: none,
            off: none,
        }; Record::TERMS],
    }
}

// 9, or the figures, at the gross evaluation P of a bond that is not refused before.
fn priced(b: Bond, p: Price, flows: &[i64]) -> BondAnswer
    requires price_known { PriceKnown b flows.now }
    requires units_value { p.units ≡ gross_of b }
    ensures { result ≡ bond_answer b flows.now }
{
    let statics = b.statics;
    let st = inputs::statics_of(given_of(statics));
    let old = b.tentative;
    let figures = rates::figures_by_volatility(st, b.m, b.s, old);
    let tentative = figures.tentative;
    let rates = figures.rates;
    let limits = Evaluated {
        b,
        flows,
        st,
        p,
        s1: rates[0],
    }
    .all_limits();
    if some_crossed(&limits) {
        return refused(Verdict::BandCrossed);
    }
    BondAnswer {
        verdict: Verdict::Done,
        gross: p.units,
        tentative,
        rates,
        limits,
    }
}

// What the call answers, for every input: 6, 17, 7, 9, or the figures. The cash flows are lent, two numbers each.
pub fn answer(b: Bond, flows: &[i64]) -> BondAnswer
    ensures { result ≡ bond_answer b flows.now }
{
    if !(bond_valid(b) & flows_valid(flows)) {
        return refused(Verdict::OutOfRange);
    }
    if b.face == 0 {
        return refused(Verdict::NoFaceValue);
    }
    let gross = Price::new(gross_of(b));
    match gross {
        None => refused(Verdict::PriceOutOfRange),
        Some(p) => priced(b, p, flows),
    }
}
