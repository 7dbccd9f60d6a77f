// The interest side (document 02, W-201): an evening's key maturities, lent in one slice, to the figures of each and to
// the repo band of a pair of terms. The rules are those of `interest_maturities`; this crate judges what is given,
// asks them, and puts the answer together.
#![tactic(auto)]

ghost use Rattle.std.specs.Prelude.{◌≡◌, true, false, ◌&&◌, map, Contains, IfOk, IfErr, ◌%◌, ◌<◌, ltb, length, get_or};
ghost use Rattle.paper.specs.declared.Verdict.TheVariants.{Done};
ghost use Rattle.paper.specs.Lists.{eight};
ghost use Rattle.paper.specs.Numbers.{key_numbers};
ghost use Rattle.paper.specs.Verdicts.{is_done, first_of};
ghost use Rattle.paper_interest.specs.Interest.{valid_interest, valid_keys, maturities_of, strictly_ascending, interest_checks};
ghost use Rattle.paper_interest.specs.Interest.{maturity_figures, no_figures, refused_interest, accepted_interest};
ghost use Rattle.paper_interest.specs.Interest.{interest_answer};
ghost use Rattle.interest_maturities.specs.Pair.{PairRange};
ghost use Rattle.interest.specs.Figures.{point_of, PointAt};

use interest_maturities::Nearest;
use interest_maturities::forward::Point;
use paper::{
    Day, Interest, InterestAnswer, Maturity, MaturityFigures, Statics, Tentative, Term, Verdict,
    WorkedBand,
};
use std::array;

// ---- what is refused

// What is given beside the key maturities: each number in its range, else the evening is refused 6.
fn interest_valid(i: Interest) -> bool
    ensures { result ≡ valid_interest i }
{
    (i.b <= Day::BEHIND_MOST)
        & (i.ym <= Maturity::DAYS_MOST)
        & (i.yn <= Maturity::DAYS_MOST)
        & (i.model.aup <= Statics::WEIGHT_MOST)
        & (i.model.adown <= Statics::WEIGHT_MOST)
        & ((Statics::MULTIPLIER_LEAST <= i.model.q) & (i.model.q <= Statics::MULTIPLIER_MOST))
        & ((1 <= i.h) & (i.h <= Statics::STEP_MOST))
        & ((1 <= i.wait) & (i.wait <= Statics::WAIT_MOST))
        & (i.liq <= Interest::MINIMUM_MOST)
        & (i.mm <= Interest::MINIMUM_MOST)
        & (i.sec <= Interest::MINIMUM_MOST)
        & ((Statics::DIVISOR_LEAST <= i.xir) & (i.xir <= Statics::DIVISOR_MOST))
        & exact::is_within(Term::REPO_LEAST, Term::REPO_MOST, i.money)
        & exact::is_within(Term::REPO_LEAST, Term::REPO_MOST, i.secrate)
}

// The key maturities ascend and the pair's second term is after its first, else the evening is refused 14.
fn in_order(i: Interest, numbers: &[i64]) -> bool
    requires { length numbers.now % key_numbers ≡ 0 }
    ensures { result ≡ (strictly_ascending (maturities_of numbers.now) && ltb i.ym i.yn) }
{
    interest_maturities::is_ascending(numbers) & (i.ym < i.yn)
}

// The figures past the last key maturity, and of a refusal.
const NO_FIGURES: MaturityFigures = MaturityFigures {
    change: 0,
    volatility: 0,
    tentative: Tentative { bp: 0, age: 0 },
    up: 0,
    down: 0,
};

// "A refusal returns its number with all figures 0."
#[tactic(auto, unfolding(paper_interest::specs::Interest::refused_interest))]
pub fn refused(verdict: Verdict) -> InterestAnswer
    ensures { result ≡ refused_interest verdict }
{
    InterestAnswer {
        pair: WorkedBand {
            verdict,
            lower: 0,
            upper: 0,
        },
        count: 0,
        figures: [NO_FIGURES; Maturity::COUNT_MOST],
    }
}

// ---- an evening that is not refused

// What an evening gives, in range and in order.
#[derive(Clone, Copy)]
struct Evening<'a> {
    i: Interest,
    numbers: &'a [i64],
    ghost pair_range: { PairRange i },
    ghost numbers_value: { valid_keys numbers.now ≡ true },
}

impl Evening<'_> {
    // The figures of the key maturity of number n.
    fn figures_at(&self, n: usize) -> MaturityFigures
        requires { n < 8 }
        ensures { result ≡ get_or (map (maturity_figures self.now.i) (maturities_of self.now.numbers.now)) n no_figures }
    {
        match interest_maturities::nth(self.numbers, n) {
            Some(k) => interest_maturities::repo::figures_of(self.i, k),
            None => NO_FIGURES,
        }
    }

    fn all_figures(&self) -> [MaturityFigures; Maturity::COUNT_MOST]
        ensures { result ≡ eight (λ n. get_or (map (maturity_figures self.now.i) (maturities_of self.now.numbers.now)) n
            no_figures) }
    {
        array::from_fn(|n| self.figures_at(n))
    }

    // What a term's figures are read off, of a key maturity.
    fn point_of(&self, k: Maturity) -> Point
        requires { Contains (maturities_of self.now.numbers.now) k }
        ensures { result ≡ point_of self.now.i k }
    {
        let figures = interest_maturities::repo::figures_of(self.i, k);
        Point {
            t: k.t,
            rate: interest_maturities::repo::lifted(k.r),
            up: figures.up,
            down: figures.down,
        }
    }

    // The figures y days ahead: of the nearest key maturity, or between two (14.6).
    fn point_at(&self, y: u64) -> Point
        ensures { PointAt self.now.i (maturities_of self.now.numbers.now) y result }
    {
        match interest_maturities::neighbours(self.numbers, y) {
            Nearest::One(k) => self.point_of(k),
            Nearest::Two(before, after) => {
                interest_maturities::forward::between(
                    self.point_of(before),
                    self.point_of(after),
                    y,
                )
            }
        }
    }

    fn answer(&self) -> InterestAnswer
        ensures { result ≡ accepted_interest self.now.i (maturities_of self.now.numbers.now) }
    {
        let m = self.point_at(self.i.ym);
        let n = self.point_at(self.i.yn);
        let band = interest_maturities::forward::band_of(self.i, m, n);
        InterestAnswer {
            pair: WorkedBand {
                verdict: Verdict::Done,
                lower: band.low,
                upper: band.high,
            },
            count: (self.numbers.len() / Maturity::NUMBERS) as u64,
            figures: self.all_figures(),
        }
    }
}

// What is given, if it is in range (6), and its key maturities and the pair's two terms ascend (14).
fn judged<'a>(i: Interest, numbers: &'a [i64]) -> Result<Evening<'a>, Verdict>
    ensures accepted { IfOk result (λ e. (e.i ≡ i) × (e.numbers.now ≡ numbers.now) × (first_of (interest_checks i numbers.now) ≡ Done)) }
    ensures refused { IfErr result (λ v. (first_of (interest_checks i numbers.now) ≡ v) × (is_done v ≡ false)) }
{
    if !(interest_valid(i) & interest_maturities::keys_valid(numbers)) {
        return Err(Verdict::OutOfRange);
    }
    if !in_order(i, numbers) {
        return Err(Verdict::NotAscending);
    }
    Ok(Evening { i, numbers })
}

// What the interest side answers, for every input: 6, 14, or the pair's limits and the figures of every key maturity.
pub fn answer(i: Interest, numbers: &[i64]) -> InterestAnswer
    ensures { result ≡ interest_answer i numbers.now }
{
    match judged(i, numbers) {
        Ok(evening) => evening.answer(),
        Err(verdict) => refused(verdict),
    }
}
