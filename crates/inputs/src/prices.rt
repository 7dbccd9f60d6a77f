// Prices, rates and the grid (10.1).
ghost use Rattle.std.specs.Prelude.{◌≡◌, ◌%◌, eqb};
ghost use Rattle.paper.specs.Ranges.{is_price, is_rate, grid_of, is_grid_price};

use paper::{GRID_OF_ONE, GRID_TO_TEN, LOT_TO_TEN, Price, Rate};

pub fn is_price(p: u64) -> bool
    ensures { result ≡ is_price p }
{
    (Price::LEAST_UNITS <= p) & (p <= Price::MOST_UNITS)
}

pub fn is_rate(bp: u64) -> bool
    ensures { result ≡ is_rate bp }
{
    bp <= Rate::MOST_BP
}

// "g = 100 units for lot 1, 10 for 2..10, 1 for 11..100". It is above 0 whatever the lot, so a damaged record is judged
// on some grid.
pub fn grid_of(lot: u64) -> u64
    ensures { result ≡ grid_of lot }
{
    if lot <= 1 {
        return GRID_OF_ONE;
    }
    if lot <= LOT_TO_TEN {
        return GRID_TO_TEN;
    }
    1
}

// Whether x is on the lot's grid: every number is on that of 1, and a multiple of 100 is on all three. The machine
// divides by constants and takes no branch, since the test of a sound record asks this of each of its limits.
pub fn is_on_grid(lot: u64, x: u64) -> bool
    ensures { result ≡ eqb (x % grid_of lot) 0 }
{
    (LOT_TO_TEN < lot) | (x % GRID_OF_ONE == 0) | ((1 < lot) & (x % GRID_TO_TEN == 0))
}

pub fn is_grid_price(lot: u64, p: u64) -> bool
    ensures { result ≡ is_grid_price (grid_of lot) p }
{
    is_price(p) & is_on_grid(lot, p)
}
