// The price and the rate that a limit is made of: here plain numbers enter, by the constructors of the two kinds.
ghost use Rattle.std.specs.Prelude.{◌≡◌};
ghost use Rattle.gateway.specs.PriceAndRate.{price_and_rate};

use paper::{Price, Rate};

// Both of them, or none where a number is out of range: refusal 6.
pub fn price_and_rate(p: u64, rate: u64) -> Option<(Price, Rate)>
    ensures { result ≡ price_and_rate p rate }
{
    let price = Price::new(p)?;
    let rated = Rate::new(rate)?;
    Some((price, rated))
}
