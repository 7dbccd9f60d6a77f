// What the benchmark measures beside the versions in Rust, for Rust to link: one security evaluated day after day by
// the rule of `record_evaluation`, and the root. Nothing else stands here, so that the rule has one caller: the compiler
// then makes one function of it, as it does of the tuned version, and copies no record for a call. The table is not
// part of it, since its records cannot cross to C; the benchmark runs the whole programs besides.
#![tactic(auto)]

ghost use Rattle.std.specs.Prelude.{◌≤◌};

use paper::ONE_IN_TEN_THOUSANDTHS;
use sheet_inputs::{ADMISSION_NUMBERS, DAY_NUMBERS, admitted, day_of, figure, first};

// The greatest mean of squares of two volatilities, before it is divided by 10,000: both are at most 1,000,000.
const MEAN_OF_SQUARES_MOST: u64 = 10_000_000_000_000_000;

// One security evaluated on so many days. No answer is made, and a refused day ends the run, since it is so in the
// versions in Rust.
#[unsafe(no_mangle)]
pub extern "C" fn nedrubal_days(
    x: &[i64; ADMISSION_NUMBERS],
    y: &[i64; DAY_NUMBERS],
    rows: &[i64],
    days: u64,
) -> u64 {
    let mut r = admitted(x);
    let mut sum: u64 = 0;
    for later in 0..days {
        let d = day_of(y, later);
        let w = record_evaluation::worked(first(r), d, rows);
        if !w.verdict.is_done() {
            return sum;
        }
        r = record_writing::figures::evaluated(r, d, w.made);
        sum = sum.wrapping_add(figure(r));
    }
    sum
}

// The least root of a mean of squares of two volatilities.
#[unsafe(no_mangle)]
pub extern "C" fn nedrubal_root(n: u64) -> u64 {
    if n <= MEAN_OF_SQUARES_MOST {
        return exact::least_root(ONE_IN_TEN_THOUSANDTHS, n);
    }
    0
}
