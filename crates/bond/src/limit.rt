// The limits of a bond for one term (document 02, W-206; clause 11.1), in hundredths of a per cent: on the book, and
// off it. The spread, the farthest rates, the narrower of two and the test for crossed are the shares', of `limits`;
// how a limit grows and is rounded is the bond's own: the grown price half up, and the limit inward (W-209).
ghost use Rattle.std.specs.Prelude.{◌≡◌, true, ◌≤◌};
ghost use Rattle.paper.specs.Numbers.{rate_most};
ghost use Rattle.paper.specs.Ranges.{valid_statics};
ghost use Rattle.paper_desk.specs.Limits.{bond, inward, grown_price, bond_limit_of, shifted, growing, monitored};
ghost use Rattle.paper_desk.specs.Limits.{narrower_of, band_limit_for};
ghost use Rattle.limits.specs.Sides.{repo_of};
ghost use Rattle.paper_bonds.specs.Bonds.{twenty_limit, limits_from, is_crossed};
ghost use Rattle.bond.specs.BondInputs.{ScaleRange, GrowthRange, TermRange};
ghost use Rattle.bond.specs.BondInputs.{grown_most, per_cent_of};

use paper::{
    BondScale, Limits, ONE_IN_BP, ONE_IN_PER_CENT_HUNDREDTHS, Price, Rate, Side, Statics, Term,
    Way, YEAR_IN_DAY_BP,
};
use paper_bonds::{Bond, BondLimits};

// ---- the limits of a term

// x/den grown over k days at a repo rate, half up to a unit.
fn grown_price(x: u64, den: u64, k: u64, repo: i64) -> u64
    requires { GrowthRange x den k repo }
    ensures { result ≡ grown_price (growing k repo (record { num = x; den = den })) }
{
    exact::half_up_wide(
        x,
        exact::grow(YEAR_IN_DAY_BP, k, repo),
        den * YEAR_IN_DAY_BP,
    )
}

// A bond at a term, in range: what its limits for that term are worked out from. They are not moved.
#[derive(Clone, Copy)]
struct AtTerm {
    b: BondScale,
    st: Statics,
    p: Price,
    s1: Rate,
    x: Term,
    ghost scale_range: { ScaleRange b },
    ghost st_value: { valid_statics st ≡ true },
    ghost term_range: { TermRange p s1 x },
}

impl AtTerm {
    // "(.. - Carry - НКД)/FaceValue·100", to two decimals of the per cent, that way; "Negative limits are zero."
    fn in_per_cent(self, way: Way, grown: u64) -> u64
        requires { grown ≤ grown_most }
        ensures { result ≡ per_cent_of way self.b grown }
    {
        let b = self.b;
        exact::rounded(
            way,
            ONE_IN_PER_CENT_HUNDREDTHS * grown.saturating_sub(b.carry + b.accrued),
            b.face,
        )
    }

    fn limit_of(self, way: Way, x: u64, den: u64, repo: i64) -> u64
        requires { GrowthRange x den self.x.k repo }
        ensures { result ≡ bond_limit_of way self.b (growing self.x.k repo (record { num = x; den = den })) }
    {
        self.in_per_cent(way, grown_price(x, den, self.x.k, repo))
    }

    // The term's own repo rate on that side.
    fn repo(self, side: Side) -> i64
        ensures { result ≡ repo_of side self.x }
    {
        match side {
            Side::Upper => self.x.high,
            Side::Lower => self.x.low,
        }
    }

    // P·(1 ± rate), which grows with REPORate: the farthest limit, and that of the 20 per cent off the book.
    fn shifted_limit(self, side: Side, rate: Rate) -> u64
        requires { rate.bp ≤ rate_most }
        ensures { result ≡ bond_limit_of (inward side) self.b (growing self.x.k self.b.repo (shifted side self.p.units rate.bp)) }
    {
        self.limit_of(
            limits::inward(side),
            limits::shifted(side, self.p, rate),
            ONE_IN_BP,
            self.b.repo,
        )
    }

    // P·(1 ± S_1/x_pr), which grows with the term's own repo rate on that side.
    fn monitored_limit(self, side: Side) -> u64
        ensures { result ≡ bond_limit_of (inward side) self.b (monitored self.st self.p.units self.s1.bp self.x.k (repo_of side self.x) 0 side) }
    {
        self.limit_of(
            limits::inward(side),
            self.p.units * limits::spread(self.st, side, self.s1, 0),
            ONE_IN_BP * self.st.xpr,
            self.repo(side),
        )
    }

    // Each of the two is rounded and then the narrower is taken: a limit keeps order, so that this is the one that the
    // paper takes.
    fn band_limit(self, side: Side) -> u64
        ensures { result ≡ band_limit_for (bond self.b) self.st self.p.units self.s1.bp self.x.k (repo_of side self.x) 0 side }
    {
        let farthest = self.shifted_limit(side, limits::farthest_rate(self.st, side));
        if self.st.monitoring {
            limits::narrower(side, farthest, self.monitored_limit(side))
        } else {
            farthest
        }
    }

    // Off the book: the narrower of the band limit and that of the 20 per cent.
    fn off_limit(self, side: Side, band: u64) -> u64
        ensures { result ≡ narrower_of side band (twenty_limit self.b side self.p.units self.x.k) }
    {
        limits::narrower(
            side,
            band,
            self.shifted_limit(side, Rate::of(Bond::OFF_BOOK_BP)),
        )
    }

    // On the book, and off it.
    fn limits(self) -> BondLimits
        ensures { result ≡ limits_from self.b self.st self.p.units self.s1.bp self.x }
    {
        let lower = self.band_limit(Side::Lower);
        let upper = self.band_limit(Side::Upper);
        BondLimits {
            band: Limits { lower, upper },
            off: Limits {
                lower: self.off_limit(Side::Lower, lower),
                upper: self.off_limit(Side::Upper, upper),
            },
        }
    }
}

// The limits of a term, from P and S_1.
pub fn limits_of(b: BondScale, st: Statics, p: Price, s1: Rate, x: Term) -> BondLimits
    requires scale_range { ScaleRange b }
    requires st_value { valid_statics st ≡ true }
    requires term_range { TermRange p s1 x }
    ensures { result ≡ limits_from b st p.units s1.bp x }
{
    AtTerm { b, st, p, s1, x }.limits()
}

// 9: "crossed by the same test", on the book or off it.
#[tactic(auto, unfolding(paper_bonds::specs::Bonds::is_crossed))]
pub fn is_crossed(x: BondLimits) -> bool
    ensures { result ≡ is_crossed x }
{
    limits::is_crossed(x.band) | limits::is_crossed(x.off)
}
