// The tentative rate (7.1; W-202 and W-208).
ghost use Rattle.std.specs.Prelude.{◌≡◌, ◌+◌, ◌*◌, ◌^◌, ◌≤◌, ◌<◌};
ghost use Rattle.paper.specs.Numbers.{volatility_most};
ghost use Rattle.paper_desk.specs.Rates.{least_step, tentative_rate, tentative_rate_by_move, tentative_rate_of};
ghost use Rattle.paper_desk.specs.Rates.{tentative_after};
ghost use Rattle.rates_level.specs.RateStatics.{RateStatics};

use paper::{HUNDREDTHS_OF_MILLIONTHS_IN_BP, MILLIONTHS_IN_BP, Record, Statics, Tentative};

// The least multiple of h with factor·t ≥ n: so many steps that each makes factor·h. Every t is made here, a repo
// rate's too, and no maximum holds it.
pub fn least_step(h: u64, factor: u64, n: u64) -> u64
    requires { (0 < h) × (0 < factor) × (n + factor * h < 2 ^ 64) }
    ensures { result ≡ least_step h factor n }
{
    exact::up(n, factor * h) * h
}

// The t of the paper, by new s.
pub fn tentative_rate(st: Statics, s: u64) -> u64
    requires rate_statics { RateStatics st }
    requires s_le_volatility_most { s ≤ volatility_most }
    ensures { result ≡ tentative_rate st s }
{
    least_step(st.h, HUNDREDTHS_OF_MILLIONTHS_IN_BP, st.q * s)
}

// The t of a replacement: by the move itself.
fn tentative_rate_by_move(st: Statics, r: u64) -> u64
    requires rate_statics { RateStatics st }
    requires r_le_volatility_most { r ≤ volatility_most }
    ensures { result ≡ tentative_rate_by_move st r }
{
    least_step(st.h, MILLIONTHS_IN_BP, r)
}

// t: by the move where the replacement won, else by new s.
pub fn tentative_rate_of(st: Statics, replaced: bool, r: u64, s: u64) -> u64
    requires rate_statics { RateStatics st }
    requires r_le_volatility_most { (r ≤ volatility_most) × (s ≤ volatility_most) }
    ensures { result ≡ tentative_rate_of st replaced r s }
{
    if replaced {
        tentative_rate_by_move(st, r)
    } else {
        tentative_rate(st, s)
    }
}

// Up to t at once, down by one step where it has waited, else it stays.
pub fn tentative_after(h: u64, wait: u64, t: u64, old: Tentative) -> Tentative
    requires { (old.bp + h < 2 ^ 64) × (t + h < 2 ^ 64) × (old.age + 1 < 2 ^ 64) }
    ensures { result ≡ tentative_after h wait t old }
{
    if old.bp + h <= t {
        Tentative { bp: t, age: 0 }
    } else if (t + h <= old.bp) & (wait <= old.age + 1) {
        let fallen = old.bp - h;
        Tentative { bp: fallen, age: 0 }
    } else {
        Tentative {
            bp: old.bp,
            age: Record::AGE_MOST.min(old.age + 1),
        }
    }
}
