// What an admission, a day, a quote and a move give.
ghost use Rattle.std.specs.Prelude.{◌≡◌, ◌<◌};
ghost use Rattle.paper.specs.Lists.{all_three};
ghost use Rattle.paper.specs.Numbers.{id_most};
ghost use Rattle.paper.specs.Ranges.{within, valid_admission, valid_term, term_at, valid_quote, valid_side};
ghost use Rattle.paper.specs.Ranges.{valid_figures, valid_day_numbers};

use crate::prices::is_grid_price;
use crate::statics::{statics_of, valid_given, valid_tentative};
use paper::{Admission, Day, Quote, Record, Statics, Term};

// "id (1..10^9)": 0 marks an empty slot.
pub fn valid_id(id: u64) -> bool
    ensures { result ≡ within 1 id_most id }
{
    (1 <= id) & (id <= Record::ID_MOST)
}

// The last day number, the two latest evaluations, s and the tentative rate: an admission gives them, and a record
// keeps them.
pub fn valid_figures(st: Statics, day: u64, p1: u64, p2: u64, s: u64, tentative: u64) -> bool
    requires { 0 < st.h }
    ensures { result ≡ valid_figures st day p1 p2 s tentative }
{
    (day <= Record::DAY_MOST)
        & is_grid_price(st.lot, p1)
        & is_grid_price(st.lot, p2)
        & (s <= Record::VOLATILITY_MOST)
        & valid_tentative(st.h, tentative)
}

// The figures are judged only behind valid statics, whose step is not 0.
pub fn valid_admission(a: Admission) -> bool
    ensures { result ≡ valid_admission a }
{
    let given = a.given;
    if valid_id(a.id) & valid_given(given) {
        return valid_figures(statics_of(given), a.day, a.p1, a.p2, a.s, a.tentative);
    }
    false
}

// "days k 0..30 and repo band RRcL ≤ RRcH, -9,999..9,999 bp"
pub fn valid_term(x: Term) -> bool
    ensures { result ≡ valid_term x }
{
    (x.k <= Term::DAYS_MOST)
        & (Term::REPO_LEAST <= x.low)
        & (x.low <= x.high)
        & (x.high <= Term::REPO_MOST)
}

pub fn valid_terms(terms: [Term; Record::TERMS]) -> bool
    ensures { result ≡ all_three (λ k. valid_term (term_at terms k)) }
{
    terms.iter().all(|x| valid_term(*x))
}

// What a day gives by value. Its rows are lent, and judged apart.
pub fn valid_day_numbers(d: Day) -> bool
    ensures { result ≡ valid_day_numbers d }
{
    let terms = d.terms;
    (d.day <= Record::DAY_MOST)
        & (d.b <= Day::BEHIND_MOST)
        & (d.m <= Day::AHEAD_MOST)
        & valid_terms(terms)
}

// "second 0..86,399, term 0..2, bid and ask 0..10^11 (0 missing)"
pub fn valid_quote(q: Quote) -> bool
    ensures { result ≡ valid_quote q }
{
    (q.second <= Record::SECOND_LAST)
        & (q.term <= Quote::TERM_LAST)
        & (q.bid <= Quote::PRICE_MOST)
        & (q.ask <= Quote::PRICE_MOST)
}

// "A move names a side, 0 upper or 1 lower.": the number of a line or of C, judged before it is a `Side`.
pub fn valid_side(side: u64) -> bool
    ensures { result ≡ valid_side side }
{
    side <= 1
}
