// The table of statics (`statics_table` of `paper`): its numbers are read here, judged, and made statics. And the
// tentative rate, whose range the step decides.
ghost use Rattle.std.specs.Prelude.{◌≡◌, ◌<◌};
ghost use Rattle.paper.specs.Ranges.{unsigned_at, given_of, statics_of, is_in_order, multiples_of_step, valid_statics};
ghost use Rattle.paper.specs.Ranges.{valid_flags, valid_given, valid_tentative, admission_numbers};
ghost use Rattle.inputs.specs.Table.{tests_pass};

use paper::{Admission, GivenStatics, Rate, Statics, Tentative};

// The number at a place of a lent slice, and 0 where there is none; one below zero is read as a number that no range
// holds.
pub fn number_at(numbers: &[i64], place: usize) -> u64
    ensures { result ≡ unsigned_at numbers.now place }
{
    if place < numbers.len() {
        return exact::unsigned(numbers[place]);
    }
    0
}

// The statics of numbers in the order of the table: of a line, of a message, or of a call from C.
pub fn given_of(numbers: &[i64]) -> GivenStatics
    ensures { result ≡ given_of numbers.now }
{
    GivenStatics {
        lot: number_at(numbers, 0),
        h: number_at(numbers, 1),
        q: number_at(numbers, 2),
        aup: number_at(numbers, 3),
        adown: number_at(numbers, 4),
        wait: number_at(numbers, 5),
        rh1: number_at(numbers, 6),
        rh2: number_at(numbers, 7),
        rh3: number_at(numbers, 8),
        liq: number_at(numbers, 9),
        min1: number_at(numbers, 10),
        min2: number_at(numbers, 11),
        min3: number_at(numbers, 12),
        smax: number_at(numbers, 13),
        xpr: number_at(numbers, 14),
        shift: number_at(numbers, 15),
        pchmax: number_at(numbers, 16),
        pclmax: number_at(numbers, 17),
        w: number_at(numbers, 18),
        u: number_at(numbers, 19),
        monitoring: number_at(numbers, 20),
        ewma: number_at(numbers, 21),
        uevening: number_at(numbers, 22),
        autochange: number_at(numbers, 23),
        eveningmax: number_at(numbers, 24),
        useexternal: number_at(numbers, 25),
    }
}

// The numbers of an admission, in the order of its line.
pub fn numbers_of(a: Admission) -> [u64; Admission::NUMBERS]
    ensures { result ≡ admission_numbers a }
{
    let g = a.given;
    [
        a.id,
        a.day,
        a.p1,
        a.p2,
        a.s,
        a.tentative,
        g.lot,
        g.h,
        g.q,
        g.aup,
        g.adown,
        g.wait,
        g.rh1,
        g.rh2,
        g.rh3,
        g.liq,
        g.min1,
        g.min2,
        g.min3,
        g.smax,
        g.xpr,
        g.shift,
        g.pchmax,
        g.pclmax,
        g.w,
        g.u,
        g.monitoring,
        g.ewma,
        g.uevening,
        g.autochange,
        g.eveningmax,
        g.useexternal,
    ]
}

// Each in its range. Yes and no need none.
fn in_table(st: Statics) -> bool
    ensures { result ≡ tests_pass st }
{
    ((1 <= st.lot) & (st.lot <= Statics::LOT_MOST))
        & ((1 <= st.h) & (st.h <= Statics::STEP_MOST))
        & ((Statics::MULTIPLIER_LEAST <= st.q) & (st.q <= Statics::MULTIPLIER_MOST))
        & (st.aup <= Statics::WEIGHT_MOST)
        & (st.adown <= Statics::WEIGHT_MOST)
        & ((1 <= st.wait) & (st.wait <= Statics::WAIT_MOST))
        & ((1 <= st.rh1) & (st.rh1 <= Statics::FIRST_DAYS_MOST))
        & ((1 <= st.rh2) & (st.rh2 <= Statics::DAYS_MOST))
        & ((1 <= st.rh3) & (st.rh3 <= Statics::DAYS_MOST))
        & (st.liq <= Statics::LIQUIDITY_MOST)
        & (st.min1 <= Rate::MOST_BP)
        & (st.min2 <= Rate::MOST_BP)
        & (st.min3 <= Rate::MOST_BP)
        & (st.smax <= Rate::MOST_BP)
        & ((Statics::DIVISOR_LEAST <= st.xpr) & (st.xpr <= Statics::DIVISOR_MOST))
        & ((1 <= st.shift) & (st.shift <= Statics::SHIFT_MOST))
        & (st.pchmax <= Rate::MOST_BP)
        & (st.pclmax <= Rate::MOST_BP)
        & (st.w <= Statics::NEARNESS_MOST)
        & ((1 <= st.u) & (st.u <= Statics::SECONDS_MOST))
        & ((1 <= st.uevening) & (st.uevening <= Statics::SECONDS_MOST))
        & (st.eveningmax <= Statics::EVENING_MOVES_MOST)
}

// "rh_1 ≤ rh_2 ≤ rh_3", "S_1_min ≤ S_2_min ≤ S_3_min ≤ S_max"
fn in_order(st: Statics) -> bool
    ensures { result ≡ is_in_order st }
{
    (st.rh1 <= st.rh2)
        & (st.rh2 <= st.rh3)
        & (st.min1 <= st.min2)
        & (st.min2 <= st.min3)
        & (st.min3 <= st.smax)
}

// "multiples of h": the minima and S_max.
fn multiples_of_step(st: Statics) -> bool
    requires { 0 < st.h }
    ensures { result ≡ multiples_of_step st }
{
    (st.min1 % st.h == 0) & (st.min2 % st.h == 0) & (st.min3 % st.h == 0) & (st.smax % st.h == 0)
}

// Nothing is divided by the step before the ranges and orders have passed.
pub fn valid_statics(st: Statics) -> bool
    ensures { result ≡ valid_statics st }
{
    if in_table(st) & in_order(st) {
        return multiples_of_step(st);
    }
    false
}

// "yes 1, no 0"
pub fn statics_of(g: GivenStatics) -> Statics
    ensures { result ≡ statics_of g }
{
    Statics {
        lot: g.lot,
        h: g.h,
        q: g.q,
        aup: g.aup,
        adown: g.adown,
        wait: g.wait,
        rh1: g.rh1,
        rh2: g.rh2,
        rh3: g.rh3,
        liq: g.liq,
        min1: g.min1,
        min2: g.min2,
        min3: g.min3,
        smax: g.smax,
        xpr: g.xpr,
        shift: g.shift,
        pchmax: g.pchmax,
        pclmax: g.pclmax,
        w: g.w,
        u: g.u,
        monitoring: g.monitoring == 1,
        ewma: g.ewma == 1,
        uevening: g.uevening,
        autochange: g.autochange == 1,
        eveningmax: g.eveningmax,
        useexternal: g.useexternal == 1,
    }
}

// A flag that is neither 0 nor 1 is out of range.
fn valid_flags(g: GivenStatics) -> bool
    ensures { result ≡ valid_flags g }
{
    (g.monitoring <= 1) & (g.ewma <= 1) & (g.autochange <= 1) & (g.useexternal <= 1)
}

pub fn valid_given(g: GivenStatics) -> bool
    ensures { result ≡ valid_given g }
{
    valid_statics(statics_of(g)) & valid_flags(g)
}

// From 0 to the top, a multiple of h: of a share's tentative rate, and of whatever else has one. The top is "the least
// multiple of h at or above 100,000 bp" (W-208): a multiple of h is at most that one exactly where a step less is below
// 100,000 bp, which asks for no division.
pub fn valid_tentative(h: u64, tentative: u64) -> bool
    requires { 0 < h }
    ensures { result ≡ valid_tentative h tentative }
{
    (tentative.saturating_sub(h) < Tentative::MOST_BP) & (tentative % h == 0)
}
