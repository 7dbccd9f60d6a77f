// A guess of the requirement of a level (W-214), in steps of h. No rate rests on it: `rate_near` tries it from both
// sides before it takes it. So its contracts say only how large it may be.
ghost use Rattle.std.specs.Prelude.{◌≤◌, ◌<◌};
ghost use Rattle.paper.specs.Numbers.{ahead_most};
ghost use Rattle.rates_level.specs.RateStatics.{RateStatics, tentative_bound};
ghost use Rattle.rates_level.specs.Level.{root_bound, guess_most, steps_bound};

use paper::Statics;

// The root of a number of days in parts of 1/8,192, rounded down. An arm to a number becomes one load from a table; an
// array would be made anew at each call.
fn root_of(n: u64) -> u64
    ensures { result < root_bound }
{
    match n {
        0 => 0,
        1 => 8_192,
        2 => 11_585,
        3 => 14_188,
        4 => 16_384,
        5 => 18_317,
        6 => 20_066,
        7 => 21_673,
        8 => 23_170,
        9 => 24_576,
        10 => 25_905,
        11 => 27_169,
        12 => 28_377,
        13 => 29_536,
        14 => 30_651,
        15 => 31_727,
        16 => 32_768,
        17 => 33_776,
        18 => 34_755,
        19 => 35_708,
        20 => 36_635,
        21 => 37_540,
        22 => 38_423,
        23 => 39_287,
        24 => 40_132,
        25 => 40_960,
        26 => 41_771,
        27 => 42_566,
        28 => 43_347,
        29 => 44_115,
        _ => 44_869,
    }
}

// The square of those parts, in which a product of two roots comes.
const SQUARE_OF_PARTS: u64 = 67_108_864;

// About (tentative·sqrt(rh_1 + m) + liq·sqrt(rh_1))/rh_1 in steps of h: the requirement without sqrt(rh_L), which the
// three levels share.
pub fn guess_of(st: Statics, m: u64, tentative: u64) -> u64
    requires rate_statics { RateStatics st }
    requires m_le_ahead_most { (m ≤ ahead_most) × (tentative ≤ tentative_bound) }
    ensures { result ≤ guess_most }
{
    (tentative * root_of(st.rh1 + m) + st.liq * root_of(st.rh1)) / (st.h * st.rh1)
}

// So many steps as that guess and sqrt(rh_L) make.
pub fn guessed_steps(guess: u64, days: u64) -> u64
    requires { guess ≤ guess_most }
    ensures { result < steps_bound }
{
    (guess * root_of(days) + (SQUARE_OF_PARTS - 1)) / SQUARE_OF_PARTS
}
