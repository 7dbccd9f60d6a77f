// Which number of an admission is at fault where it is refused 4, by its place in the line: the first that is out of its
// own range, else the first that does not go with another.
ghost use Rattle.std.specs.Prelude.{◌≡◌, ◌||◌, ◌<◌, ltb, length};
ghost use Rattle.std.specs.declared.option.Option.TheVariants.{None, Some};
ghost use Rattle.paper.specs.Lists.{pick};
ghost use Rattle.paper.specs.Verdicts.{first_named};
ghost use Rattle.paper_reasons.specs.AdmissionFaults.{is_off, unfit, first_place, field_at_fault};
ghost use Rattle.record_reasons.specs.FirstOut.{out_at, first_out};

use inputs::{is_on_grid, numbers_of, valid_tentative};
use paper::{Admission, GivenStatics, Price, Record};

// ---- out of range

// The top of no step passes this, in bp: TENTATIVE has its own range before H is looked at.
const TENTATIVE_FARTHEST: u64 = 100_999;

// Each number at the least and at the most of its range (`admission_table` of `paper_reasons`).
const LEAST: Admission = Admission {
    id: 1,
    day: 0,
    p1: Price::LEAST_UNITS,
    p2: Price::LEAST_UNITS,
    s: 0,
    tentative: 0,
    given: GivenStatics::LEAST,
};

const MOST: Admission = Admission {
    id: Record::ID_MOST,
    day: Record::DAY_MOST,
    p1: Price::MOST_UNITS,
    p2: Price::MOST_UNITS,
    s: Record::VOLATILITY_MOST,
    tentative: TENTATIVE_FARTHEST,
    given: GivenStatics::MOST,
};

// Whether the number at a place of the slices is out of its range.
fn is_out(numbers: &[u64], least: &[u64], most: &[u64], at: usize) -> bool
    requires { (at < length numbers.now) × (at < length least.now) × (at < length most.now) }
    ensures { result ≡ out_at least.now most.now numbers.now at }
{
    !((least[at] <= numbers[at]) & (numbers[at] <= most[at]))
}

// The first number that is out of its range.
fn first_out(numbers: &[u64], least: &[u64], most: &[u64]) -> Option<u64>
    requires { (length least.now ≡ length numbers.now) × (length most.now ≡ length numbers.now) }
    ensures { result ≡ first_out first_place least.now most.now numbers.now }
{
    let mut at = 0;
    let mut place: u64 = 1;
    while at < numbers.len() {
        if is_out(numbers, least, most, at) {
            return Some(place);
        }
        at += 1;
        place += 1;
    }
    None
}

// ---- not together

// No multiple of the step.
fn is_off(step: u64, x: u64) -> bool
    requires { 0 < step }
    ensures { result ≡ is_off step x }
{
    !(x % step == 0)
}

// No multiple of the step, or below the one before it.
fn is_unfit(step: u64, before: u64, x: u64) -> bool
    requires { 0 < step }
    ensures { result ≡ (is_off step x || ltb x before) }
{
    is_off(step, x) | (x < before)
}

// The number at a place where it is at fault, else what a later one is.
fn named_or(fault: bool, place: u64, later: Option<u64>) -> Option<u64>
    ensures { result ≡ pick fault (Some place) later }
{
    if fault {
        return Some(place);
    }
    later
}

// The first number that does not go with another: from the last place to the first, so that the first is named.
fn first_unfit(a: Admission) -> Option<u64>
    requires { 0 < a.given.h }
    ensures { result ≡ first_named None (unfit a a.given) }
{
    let g = a.given;
    let f = named_or(is_unfit(g.h, g.min3, g.smax), 20, None);
    let f = named_or(is_unfit(g.h, g.min2, g.min3), 19, f);
    let f = named_or(is_unfit(g.h, g.min1, g.min2), 18, f);
    let f = named_or(is_off(g.h, g.min1), 17, f);
    let f = named_or(g.rh3 < g.rh2, 15, f);
    let f = named_or(g.rh2 < g.rh1, 14, f);
    let f = named_or(!valid_tentative(g.h, a.tentative), 6, f);
    let f = named_or(!is_on_grid(g.lot, a.p2), 4, f);
    named_or(!is_on_grid(g.lot, a.p1), 3, f)
}

// The number at fault in an admission, or none.
pub fn field_at_fault(a: Admission) -> Option<u64>
    ensures { result ≡ field_at_fault a }
{
    let numbers = numbers_of(a);
    let least = numbers_of(LEAST);
    let most = numbers_of(MOST);
    let out = first_out(&numbers, &least, &most);
    match out {
        None => first_unfit(a),
        Some(place) => Some(place),
    }
}
