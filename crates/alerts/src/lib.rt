// Document 01, "Ranges, bands, alerts, moves" (17.5): near sides and alerts, by value. A quote's bid and ask are no
// prices of document 01's range: 0 is missing, and they go up to 10^11. So they are bare numbers of units here, as the
// limits are that they are held against.
#![tactic(auto)]

pub mod session; // what the evening session changes of alerts and of moves

ghost use Rattle.std.specs.Prelude.{◌≡◌};
ghost use Rattle.paper_desk.specs.Alerts.{is_near, near_after, alert, near_cleared};
ghost use Rattle.alerts.specs.Nearness.{NearRange, closer};

use paper::{Limits, NearSeconds, ONE_IN_TEN_THOUSANDTHS, Side};

// Whether to - from is strictly less than w·(PcH - PcL). A lent band may stand crossed, so that either difference may
// be negative: what is taken away is added on the other side.
fn is_closer(w: u64, x: Limits, from: u64, to: u64) -> bool
    requires near_range { NearRange w x from }
    requires near_range_2 { NearRange w x to }
    ensures { result ≡ closer w x from to }
{
    ONE_IN_TEN_THOUSANDTHS * to + w * x.lower < ONE_IN_TEN_THOUSANDTHS * from + w * x.upper
}

// "Near the top: bid present and PcH - bid strictly less than w·(PcH - PcL). Near the bottom likewise with ask - PcL."
pub fn is_near(side: Side, w: u64, x: Limits, price: u64) -> bool
    requires { NearRange w x price }
    ensures { result ≡ is_near side w x price }
{
    match side {
        Side::Upper => (0 < price) & is_closer(w, x, price, x.upper),
        Side::Lower => (0 < price) & is_closer(w, x, x.lower, price),
    }
}

// "A near side keeps the second at which it became near; a quote that isn't near clears it."
pub fn near_after(near: bool, old: Option<u64>, second: u64) -> Option<u64>
    ensures { result ≡ near_after near old second }
{
    near.then_some(old.unwrap_or(second))
}

// "near, and at least u seconds since that second"
pub fn alert(u: u64, n: Option<u64>, second: u64) -> bool
    ensures { result ≡ alert u n second }
{
    match n {
        None => false,
        Some(since) => since <= second && u <= second - since,
    }
}

// "It clears that side's near seconds": of one term.
pub fn near_cleared(side: Side, n: NearSeconds) -> NearSeconds
    ensures { result ≡ near_cleared side n }
{
    let top = n.top;
    let bottom = n.bottom;
    match side {
        Side::Upper => NearSeconds { top: None, bottom },
        Side::Lower => NearSeconds { top, bottom: None },
    }
}
