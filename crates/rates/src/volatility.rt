// The move and the volatility (7.1).
ghost use Rattle.std.specs.Prelude.{◌≡◌, true, ◌*◌, ◌^◌, ◌≤◌, ◌<◌};
ghost use Rattle.paper.specs.Numbers.{one_in_ten_thousandths, volatility_most};
ghost use Rattle.paper.specs.Ranges.{is_price};
ghost use Rattle.paper_desk.specs.Rates.{model_of, move_from, move_of, weight_of, weighted, replacement, replaces};
ghost use Rattle.paper_desk.specs.Rates.{volatility_of, Weighing};
ghost use Rattle.rates.specs.Chosen.{chosen};

use paper::{Model, ONE_IN_HUNDREDTHS, ONE_IN_MILLIONTHS, ONE_IN_TEN_THOUSANDTHS, Price, Statics};

// Place (e).
fn move_from(earlier: Price, p: Price) -> u64
    requires { (is_price earlier.units ≡ true) × (is_price p.units ≡ true) }
    ensures { result ≡ move_from p.units earlier.units }
{
    exact::up(
        p.units.abs_diff(earlier.units) * ONE_IN_MILLIONTHS,
        earlier.units,
    )
}

// The r of the paper, in millionths.
pub fn move_of(p1: Price, p2: Price, p: Price) -> u64
    requires { (is_price p1.units ≡ true) × (is_price p2.units ≡ true) × (is_price p.units ≡ true) }
    ensures { result ≡ move_of p.units p1.units p2.units }
{
    move_from(p1, p).max(move_from(p2, p))
}

// The weights and the multiplier of a share.
pub fn model_of(st: Statics) -> Model
    ensures { result ≡ model_of st }
{
    Model {
        aup: st.aup,
        adown: st.adown,
        q: st.q,
    }
}

// The a of the paper, in ten-thousandths.
pub fn weight_of(m: Model, b: u64, r: u64, s: u64) -> u64
    ensures { result ≡ weight_of m b r s }
{
    if b > 1 {
        0
    } else if r > s {
        m.aup
    } else {
        m.adown
    }
}

// Place (f): the x of the paper.
pub fn weighted(a: u64, s: u64, r: u64) -> u64
    requires { (a ≤ one_in_ten_thousandths) × (s ≤ 2 ^ 20) × (r ≤ 2 ^ 20) }
    ensures { result ≡ weighted a s r }
{
    exact::least_root(
        ONE_IN_TEN_THOUSANDTHS,
        (ONE_IN_TEN_THOUSANDTHS - a) * (s * s) + a * (r * r),
    )
}

// The y of the paper.
pub fn replacement(q: u64, r: u64) -> u64
    requires { (0 < q) × (r ≤ volatility_most) }
    ensures { result ≡ replacement q r }
{
    exact::up(ONE_IN_HUNDREDTHS * r, q)
}

// Whether y is chosen over x. The last rate is in the unit of the move; where the move is not above it no y is worked
// out.
pub fn replaces(m: Model, b: u64, last: u64, r: u64, x: u64) -> bool
    requires { (0 < m.q) × (r ≤ volatility_most) }
    ensures { result ≡ replaces m b r last x }
{
    if (b <= 1) & (r > last) {
        return x < replacement(m.q, r);
    }
    false
}

// New s, and whether it is the replacement: s stands whichever won, so that no Option says it.
#[derive(Clone, Copy)]
pub struct Volatility {
    pub s: u64,
    pub replaced: bool,
}

pub fn choose(m: Model, b: u64, last: u64, r: u64, s: u64) -> Volatility
    requires weighing { Weighing m }
    requires r_le_volatility_most { (r ≤ volatility_most) × (s ≤ volatility_most) }
    ensures { result ≡ chosen m b last r s }
{
    let x = weighted(weight_of(m, b, r, s), s, r);
    if replaces(m, b, last, r, x) {
        Volatility {
            s: replacement(m.q, r),
            replaced: true,
        }
    } else {
        Volatility {
            s: x,
            replaced: false,
        }
    }
}

// New s alone, which is all that the interest side takes.
pub fn volatility_of(m: Model, b: u64, last: u64, r: u64, s: u64) -> u64
    requires weighing { Weighing m }
    requires r_le_volatility_most { (r ≤ volatility_most) × (s ≤ volatility_most) }
    ensures { result ≡ volatility_of m b r last s }
{
    let new = choose(m, b, last, r, s);
    new.s
}
