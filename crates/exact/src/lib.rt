// Whole-number arithmetic that loses nothing: the roundings of document 01, "Places of rounding", the least root of
// clause 7.1, and signed numbers, given or lent. Every result is a definition of `paper`, for every input that its
// callers can have. What several contracts ask (a divisor above 0, a place in a slice, a sum that fits) are facts of
// bare numbers, which callers have from the paper's ranges: a struct around a number would be no plainer.
#![tactic(auto)]

ghost use Rattle.std.specs.Prelude.{◌≡◌, false, ◌+◌, ◌-◌, ◌*◌, ◌/◌, ◌%◌, ◌^◌, ◌≤◌, ◌<◌, pos, length, get_or};
ghost use Rattle.std.specs.Int.Signed.{mag, lt_z};
ghost use Rattle.paper.specs.Numbers.{one_in_ten_thousandths};
ghost use Rattle.paper.specs.Roundings.{up, half_up, rounded, rounded_to, to_grid, grown};
ghost use Rattle.paper.specs.Least.{least_root};
ghost use Rattle.paper.specs.Ranges.{within_z, unsigned};
ghost use Rattle.exact.specs.Remainders.{goes_up};
ghost use Rattle.exact.specs.RootBits.{Searched, OneBitMore};
ghost use Rattle.exact.specs.Wide.{Divides, LimitRange};
ghost use Rattle.exact.specs.SignedLaws.{Grows};
ghost use Rattle.exact.specs.Within.{all_within, every_within, parts_within};

use paper::Way;

// ---- the roundings

// Whether a quotient with this remainder goes on to the next whole number.
fn goes_up(way: Way, rest: u64, d: u64) -> bool
    requires { rest < d }
    ensures { result ≡ goes_up way rest d }
{
    match way {
        Way::Down => false,
        Way::HalfUp => d - rest <= rest,
        Way::Up => 0 < rest,
    }
}

// n/d rounded that way. Nothing is added to n and nothing is doubled, so that every n can be rounded: the sums of place
// (c) reach 1.6·10^19.
pub fn rounded(way: Way, n: u64, d: u64) -> u64
    requires { 0 < d }
    ensures { result ≡ rounded way n d }
{
    let q = n / d;
    if goes_up(way, n % d, d) { q + 1 } else { q }
}

// n/d rounded up, as at places (e) and (f).
pub fn up(n: u64, d: u64) -> u64
    requires { 0 < d }
    ensures { result ≡ up n d }
{
    rounded(Way::Up, n, d)
}

// n/d to the nearest whole number, a tie up, as at places (a), (b) and (c).
pub fn half_up(n: u64, d: u64) -> u64
    requires { 0 < d }
    ensures { result ≡ half_up n d }
{
    rounded(Way::HalfUp, n, d)
}

// The same by one quotient and no remainder, where half of d can be added to n (W-214). Of an odd d the half is rounded
// down, and nothing is lost: an odd d has no tie.
pub fn half_up_once(n: u64, d: u64) -> u64
    requires { (0 < d) × (n + d / 2 < 2 ^ 64) }
    ensures { result ≡ half_up n d }
{
    (n + d / 2) / d
}

// n/d rounded that way to a multiple of g, as at place (g).
pub fn rounded_to(way: Way, g: u64, n: u64, d: u64) -> u64
    requires { (0 < g) × (0 < d) × (n + d * g < 2 ^ 64) }
    ensures { result ≡ rounded_to way g n d }
{
    rounded(way, n, d * g) * g
}

// n/d to the nearest multiple of g, a tie up, as at place (d).
pub fn to_grid(g: u64, n: u64, d: u64) -> u64
    requires { (0 < g) × (0 < d) × (n + d * g < 2 ^ 64) }
    ensures { result ≡ to_grid g n d }
{
    rounded_to(Way::HalfUp, g, n, d)
}

// ---- products that do not fit 64 bits

// A quotient and its remainder.
#[derive(Clone, Copy)]
struct Division {
    quot: u64,
    rest: u64,
}

// A factor is taken in two digits of 11 bits.
const DIGIT: u64 = 2_048;

// x·n divided by e. With x = q·e + r the product is q·n·e + r·n, and r·n is divided by the digits of n.
fn divide_product(x: u64, n: u64, e: u64) -> Division
    requires { Divides x n e }
    ensures { (result.quot ≡ x * n / e) × (result.rest ≡ x * n % e) }
{
    let q = x / e;
    let r = x % e;
    let high = r * (n / DIGIT);
    let low = high % e * DIGIT + r * (n % DIGIT);
    Division {
        quot: q * n + high / e * DIGIT + low / e,
        rest: low % e,
    }
}

// x·n/e rounded that way.
pub fn rounded_wide(way: Way, x: u64, n: u64, e: u64) -> u64
    requires { Divides x n e }
    ensures { result ≡ rounded way (x * n) e }
{
    let s = divide_product(x, n, e);
    if goes_up(way, s.rest, e) {
        s.quot + 1
    } else {
        s.quot
    }
}

// x·n/e to the nearest whole number, a tie up: the row price of place (a).
pub fn half_up_wide(x: u64, n: u64, e: u64) -> u64
    requires { Divides x n e }
    ensures { result ≡ half_up (x * n) e }
{
    rounded_wide(Way::HalfUp, x, n, e)
}

// p·a·b/d to a multiple of g, rounded once, that way: the monitored band limit of place (g).
pub fn product_to_grid(way: Way, g: u64, p: u64, a: u64, b: u64, d: u64) -> u64
    requires { LimitRange g p a b d }
    ensures { result ≡ rounded_to way g (p * a * b) d }
{
    rounded_wide(way, p * a, b, d * g) * g
}

// ---- the least root

// The bits of a root: 2^20 is above every volatility.
const MOST_BITS: u64 = 20;

// The bits of most roots (W-214): 2^16 millionths are 6.5 per cent, and no volatility in bp reaches 2^16.
const FEW_BITS: u64 = 16;

// x·2^k, by a shift.
fn shl(x: u64, k: u64) -> u64
    requires { (k < 64) × (x * 2 ^ k < 2 ^ 64) }
    ensures { result ≡ x * 2 ^ k }
{
    x << k
}

// What is found of a root when k of its bits are to come (`Searched`): x is its bits so far. With y = x·2^k, doubled is
// 2·factor·y·2^20, and rest is what factor·y² leaves of the number, times 2^(20 - k). So doubled is shifted in no turn,
// and what a turn waits for is short (W-214).
#[derive(Clone, Copy)]
struct Found {
    x: u64,
    doubled: u64,
    rest: u64,
}

// One bit more of the k that are to come.
fn next_bit(found: Found, factor: u64, k: u64) -> Found
    requires { (0 < k) × (factor ≤ one_in_ten_thousandths) × Searched factor k found }
    ensures { OneBitMore factor k found result }
{
    let step = shl(factor, MOST_BITS + k - 1);
    let next = found.doubled + step;
    let x = found.x + found.x;
    let rest = found.rest + found.rest;
    if next <= rest {
        Found {
            x: x + 1,
            doubled: next + step,
            rest: rest - next,
        }
    } else {
        Found {
            x,
            doubled: found.doubled,
            rest,
        }
    }
}

// How many bits the root of n is sought in.
fn root_bits(factor: u64, n: u64) -> u64
    requires { (factor ≤ one_in_ten_thousandths) × (n ≤ factor * 2 ^ 40) }
    ensures { (result ≤ 20) × (n ≤ factor * (2 ^ result * 2 ^ result)) }
{
    if n <= shl(factor, FEW_BITS + FEW_BITS) {
        FEW_BITS
    } else {
        MOST_BITS
    }
}

// The least x with factor·x² >= n (7.1), by shifts, sums and comparisons only (W-204; `outside/root` reads what they
// become). The bits of the greatest x with factor·x² < n are found from the top, in 16 turns or in 20. There are two
// loops so that the compiler knows how many turns each has. It writes them out without a jump, and the root is too long
// to be put into its callers, where `outside/root` would not see it. They count by hand, since W-204 asks for this
// machine code.
pub fn least_root(factor: u64, n: u64) -> u64
    requires { (0 < factor) × (factor ≤ one_in_ten_thousandths) × (n ≤ factor * 2 ^ 40) }
    ensures { result ≡ least_root factor n }
{
    if n == 0 {
        return 0;
    }
    let mut k = root_bits(factor, n);
    let mut found = Found {
        x: 0,
        doubled: 0,
        rest: shl(n - 1, MOST_BITS - k),
    };
    while FEW_BITS < k {
        found = next_bit(found, factor, k);
        k -= 1;
    }
    while 0 < k {
        found = next_bit(found, factor, k);
        k -= 1;
    }
    found.x + 1
}

// ---- signed numbers

// The number that no range of the paper holds.
const PAST_EVERY: u64 = 18_446_744_073_709_551_615;

// Whether low <= x <= high.
pub fn is_within(low: i64, high: i64, x: i64) -> bool
    ensures { result ≡ within_z low high x }
{
    low <= x && x <= high
}

// n where x is n or -(n + 1). Every other function leaves the sign to this one.
pub fn magnitude(x: i64) -> u64
    ensures { result ≡ mag x }
{
    if x < 0 { (-1 - x) as u64 } else { x as u64 }
}

// A number of a range that begins at 0 or above; one below zero is out of every such range.
pub fn unsigned(x: i64) -> u64
    ensures { result ≡ unsigned x }
{
    if x < 0 { PAST_EVERY } else { magnitude(x) }
}

// base + k·rate for a rate of either sign: a year's days with the repo rate of k of them, at places (a) and (g).
pub fn grow(base: u64, k: u64, rate: i64) -> u64
    requires { Grows base k rate }
    ensures { result ≡ grown base k rate }
{
    let n = magnitude(rate);
    if rate < 0 {
        base - k * (n + 1)
    } else {
        base + k * n
    }
}

// ---- a number of a lent slice: the place stands beside the slice, as in `numbers[i]`

// The number at i; one below zero is read as a number that no range holds.
pub fn unsigned_at(numbers: &[i64], i: usize) -> u64
    requires { i < length numbers.now }
    ensures { result ≡ unsigned (get_or numbers.now i (pos 0)) }
{
    unsigned(numbers[i])
}

// The number at i, which is not below zero and so is read as it is (W-214).
pub fn natural_at(numbers: &[i64], i: usize) -> u64
    requires i_in_bounds { i < length numbers.now }
    requires pos_value { lt_z (get_or numbers.now i (pos 0)) (pos 0) ≡ false }
    ensures { result ≡ unsigned (get_or numbers.now i (pos 0)) }
{
    numbers[i] as u64
}

// Whether the number at i is from low to high.
pub fn within_at(numbers: &[i64], i: usize, low: i64, high: i64) -> bool
    requires { i < length numbers.now }
    ensures { result ≡ within_z low high (get_or numbers.now i (pos 0)) }
{
    is_within(low, high, numbers[i])
}

// Whether the numbers from `at` on, as many as there are ranges, are each from its least to its most. The tests are
// joined without branches: what is lent is nearly always in range.
pub fn all_within(numbers: &[i64], at: usize, least: &[i64], most: &[i64]) -> bool
    requires least_in_bounds { at + length least.now ≤ length numbers.now }
    requires most_len { length most.now ≡ length least.now }
    ensures { result ≡ all_within least.now most.now numbers.now at }
{
    let mut all = true;
    for i in 0..least.len() {
        all = all & within_at(numbers, at + i, least[i], most[i]);
    }
    all
}

// Whether all_within holds of every part of a lent slice, whose parts have as many numbers as there are ranges.
fn every_within(numbers: &[i64], least: &[i64], most: &[i64]) -> bool
    requires least_nonzero { (0 < length least.now) × (length most.now ≡ length least.now) }
    requires least_len { length numbers.now % length least.now ≡ 0 }
    ensures { result ≡ every_within least.now most.now numbers.now }
{
    numbers
        .chunks_exact(least.len())
        .all(|part| all_within(part, 0, least, most))
}

// Whether a lent slice has only whole parts, `fewest` to `greatest` numbers in all, and each number is in its range.
pub fn parts_within(
    numbers: &[i64],
    fewest: usize,
    greatest: usize,
    least: &[i64],
    most: &[i64],
) -> bool
    requires { (0 < length least.now) × (length most.now ≡ length least.now) }
    ensures { result ≡ parts_within fewest greatest least.now most.now numbers.now }
{
    let count = numbers.len();
    if !((count % least.len() == 0) & ((fewest <= count) & (count <= greatest))) {
        return false;
    }
    every_within(numbers, least, most)
}
