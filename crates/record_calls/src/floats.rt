// Which price a 64-bit float is (document 02, W-211): its exact value, taken from its bits and rounded once, in whole
// numbers of 64 bits. No float is added, multiplied, rounded or converted. One is compared, with itself: what is no
// number differs from itself, and a float's bits may be read only where it is a number.
ghost use Rattle.std.specs.Prelude.{◌≡◌};
ghost use Rattle.paper.specs.Floats.{price_of_bits, price_of};

use paper::floats::{LEADING_ONE, SCALE};
use paper::{ONE_IN_TEN_THOUSANDTHS, Price};

// 10,000·significand can pass 64 bits. But 10,000 is 625·2^4, and 625·significand is below 2^63.
const FACTOR: u64 = ONE_IN_TEN_THOUSANDTHS / 16;

// With this exponent a float is 625·significand units, and with one less it is the half of that.
const WHOLE_EXPONENT: u64 = SCALE - 4;

// With less than this the units would be divided by 2^64 or more, and round to 0.
const LEAST_EXPONENT: u64 = WHOLE_EXPONENT - 63;

// The price of a float's bits. `top` is the exponent, and far above every exponent where the sign is a minus.
fn price_of_bits(bits: u64) -> Option<Price>
    ensures { result ≡ price_of_bits bits }
{
    let top = bits / LEADING_ONE;
    if top < LEAST_EXPONENT {
        return None;
    }
    if WHOLE_EXPONENT < top {
        return None;
    }
    let significand = LEADING_ONE + bits % LEADING_ONE;
    let units = exact::half_up(FACTOR * significand, 1 << (WHOLE_EXPONENT - top));
    Price::new(units)
}

// The price of a float, or that it is none (20): every float may be given.
pub fn price_of(x: f64) -> Option<Price>
    ensures { result ≡ price_of x }
{
    if x != x {
        return None;
    }
    price_of_bits(f64::to_bits(x))
}
