// The figures of a key maturity (W-201, clause 14.4), by value. The weights, the root, the replacement and the
// one-step-down rule are the shares'.
ghost use Rattle.std.specs.Prelude.{◌≡◌, ◌-◌, ◌*◌, ◌≤◌, nat_abs};
ghost use Rattle.paper.specs.Numbers.{one_in_hundredths, minimum_most, repo_most, repo_volatility_most, repo_tentative_most};
ghost use Rattle.paper.specs.Roundings.{grown, at_least_zero};
ghost use Rattle.paper_desk.specs.Rates.{least_step};
ghost use Rattle.paper_interest.specs.Interest.{apart_z, change_of, repo_volatility, repo_tentative, maturity_figures};
ghost use Rattle.paper_interest.specs.Interest.{InterestRange, KeyRange};
ghost use Rattle.interest_maturities.specs.Lift.{lift};
ghost use Rattle.interest_maturities.specs.Estimates.{estimate_of, security_minimum};

use paper::{Interest, Maturity, MaturityFigures, ONE_IN_HUNDREDTHS, Tentative};

// The base on which a rate of either sign is a natural number: differences of rates are worked out without a sign. It
// is no number of the paper.
pub const LIFT: u64 = 1_000_000;

// A rate on the base.
pub fn lifted(x: i64) -> u64
    requires { nat_abs x ≤ nat_abs repo_most }
    ensures { result ≡ grown lift 1 x }
{
    exact::grow(LIFT, 1, x)
}

// |x - y|
fn apart(x: i64, y: i64) -> u64
    requires { (nat_abs x ≤ nat_abs repo_most) × (nat_abs y ≤ nat_abs repo_most) }
    ensures { result ≡ apart_z x y }
{
    lifted(x).abs_diff(lifted(y))
}

// How far the rate is from that of either evening before.
pub fn change_of(k: Maturity) -> u64
    requires { KeyRange k }
    ensures { result ≡ change_of k }
{
    apart(k.r, k.r1).max(apart(k.r, k.r2))
}

// REPOIndex - REPOrate + SECΔ, where below zero counts as 0.
fn security_minimum(index: i64, rate: i64, sec: u64) -> u64
    requires { (nat_abs index ≤ nat_abs repo_most) × (nat_abs rate ≤ nat_abs repo_most) × (sec ≤ minimum_most) }
    ensures { (result ≡ at_least_zero (security_minimum index rate sec)) × (result ≤ repo_tentative_most) }
{
    (lifted(index) + sec).saturating_sub(lifted(rate))
}

// An evening and one of its key maturities, both in range.
#[derive(Clone, Copy)]
struct Key {
    i: Interest,
    k: Maturity,
    ghost interest_range: { InterestRange i },
    ghost key_range: { KeyRange k },
}

impl Key {
    // The shares' rule in basis points, with the old tentative rate as the last rate.
    fn volatility_of(self, change: u64) -> u64
        requires { change ≡ change_of self.k }
        ensures { result ≡ repo_volatility self.i self.k }
    {
        let k = self.k;
        rates::volatility::volatility_of(
            self.i.model,
            self.i.b,
            k.tentative.bp,
            change,
            k.volatility,
        )
    }

    // The t of the paper: no maximum holds it.
    fn tentative_rate(self, volatility: u64) -> u64
        requires { volatility ≤ repo_volatility_most }
        ensures { result ≡ least_step self.i.h one_in_hundredths (self.i.model.q * volatility) }
    {
        rates::tentative::least_step(self.i.h, ONE_IN_HUNDREDTHS, self.i.model.q * volatility)
    }

    // Up to t at once, down by one step where it has waited: the shares' rule.
    fn tentative_of(self, volatility: u64) -> Tentative
        requires { volatility ≡ repo_volatility self.i self.k }
        ensures { result ≡ repo_tentative self.i self.k }
    {
        let t = self.tentative_rate(volatility);
        rates::tentative::tentative_after(self.i.h, self.i.wait, t, self.k.tentative)
    }

    // The least multiple of h at or above the greater of tentative + liquidity and the minimum. Three estimates ask that
    // the tentative rate is in range: it is worked out on the way, and a type of it for three calls is no plainer.
    fn estimate(self, tentative: u64, minimum: u64) -> u64
        requires { (tentative ≤ repo_tentative_most) × (minimum ≤ repo_tentative_most) }
        ensures { result ≡ estimate_of self.i tentative minimum }
    {
        rates::tentative::least_step(self.i.h, 1, (tentative + self.i.liq).max(minimum))
    }

    // HΔ.
    fn upward(self, tentative: u64) -> u64
        requires { tentative ≤ repo_tentative_most }
        ensures { result ≡ estimate_of self.i tentative self.i.mm }
    {
        self.estimate(tentative, self.i.mm)
    }

    // LΔ.
    fn downward(self, tentative: u64) -> u64
        requires { tentative ≤ repo_tentative_most }
        ensures { result ≡ estimate_of self.i tentative (at_least_zero (security_minimum self.k.index self.k.r self.i.sec)) }
    {
        let k = self.k;
        self.estimate(tentative, security_minimum(k.index, k.r, self.i.sec))
    }

    fn figures(self) -> MaturityFigures
        ensures { result ≡ maturity_figures self.i self.k }
    {
        let change = change_of(self.k);
        let volatility = self.volatility_of(change);
        let tentative = self.tentative_of(volatility);
        MaturityFigures {
            change,
            volatility,
            tentative,
            up: self.upward(tentative.bp),
            down: self.downward(tentative.bp),
        }
    }
}

// The figures of a key maturity.
pub fn figures_of(i: Interest, k: Maturity) -> MaturityFigures
    requires interest_range { InterestRange i }
    requires key_range { KeyRange k }
    ensures { result ≡ maturity_figures i k }
{
    Key { i, k }.figures()
}
