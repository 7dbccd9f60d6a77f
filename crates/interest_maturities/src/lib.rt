// The key maturities of an evening (document 02, W-201): eight signed numbers each, lent in one slice, checked and
// read.
#![tactic(auto)]

pub mod repo; // the figures of one key maturity (14.4)
pub mod forward; // what lies between them, and the repo band of a pair of terms

ghost use Rattle.std.specs.Prelude.{◌≡◌, ◌∷◌, ◌+◌, ◌%◌, ◌≤◌, ◌<◌, length, slice_get, MatchOption, IfSome};
ghost use Rattle.paper.specs.Numbers.{key_numbers};
ghost use Rattle.paper_interest.specs.Interest.{key_at, valid_keys, maturity_of};
ghost use Rattle.paper_interest.specs.Interest.{maturities_of, strictly_ascending};
ghost use Rattle.interest_maturities.specs.Reads.{Reads};

use paper::{Maturity, Record, Tentative, Term};

// How many numbers a key maturity has.
const KEY_NUMBERS: usize = Maturity::NUMBERS;

// The ends of ranges of which paper's code has the unsigned number: what is lent is signed.
const DAYS_MOST: i64 = Maturity::DAYS_MOST as i64;

const VOLATILITY_MOST: i64 = Maturity::VOLATILITY_MOST as i64;

const TENTATIVE_MOST: i64 = Maturity::TENTATIVE_MOST as i64;

const AGE_MOST: i64 = Record::AGE_MOST as i64;

// ---- ranges

// "Rates given lie in -9,999..9,999 bp, .. old volatility in 0..19,998, old tentative rate in 0..200,979, .. key
// maturities in 0..365 days, the rest as for shares"
const KEY_LEAST: [i64; Maturity::NUMBERS] = [
    0,
    Term::REPO_LEAST,
    Term::REPO_LEAST,
    Term::REPO_LEAST,
    Term::REPO_LEAST,
    0,
    0,
    0,
];

const KEY_MOST: [i64; Maturity::NUMBERS] = [
    DAYS_MOST,
    Term::REPO_MOST,
    Term::REPO_MOST,
    Term::REPO_MOST,
    Term::REPO_MOST,
    VOLATILITY_MOST,
    TENTATIVE_MOST,
    AGE_MOST,
];

// Whether the numbers are one to eight whole key maturities, each number in its range: else the evening is refused 6.
pub fn keys_valid(numbers: &[i64]) -> bool
    ensures { result ≡ valid_keys numbers.now }
{
    exact::parts_within(
        numbers,
        Maturity::NUMBERS,
        Maturity::ALL_NUMBERS_MOST,
        &KEY_LEAST,
        &KEY_MOST,
    )
}

// ---- a key maturity and its neighbours

// The key maturity that its numbers are. They are the paper's where they are in range.
fn maturity_of(numbers: &[i64; KEY_NUMBERS]) -> Maturity
    ensures { result ≡ maturity_of (key_at numbers.now 0) }
{
    let [t, r, r1, r2, index, volatility, bp, age] = *numbers;
    Maturity {
        t: exact::unsigned(t),
        r,
        r1,
        r2,
        index,
        volatility: exact::unsigned(volatility),
        tentative: Tentative {
            bp: exact::unsigned(bp),
            age: exact::unsigned(age),
        },
    }
}

// The first key maturity, and the numbers of the others.
pub fn split_first(numbers: &[i64]) -> Option<(Maturity, &[i64])>
    ensures parts { MatchOption result (length numbers.now < key_numbers) (λ p. maturities_of numbers.now ≡ p.0 ∷ maturities_of p.1.now) }
    ensures shorter { IfSome result (λ p. length p.1.now + key_numbers ≡ length numbers.now) }
{
    let (first, others) = numbers.split_first_chunk::<KEY_NUMBERS>()?;
    Some((maturity_of(first), others))
}

// The key maturity of number n, from 0 on.
pub fn nth(numbers: &[i64], n: usize) -> Option<Maturity>
    requires { n < 8 }
    ensures { result ≡ slice_get (maturities_of numbers.now) n }
{
    let (k, _) = split_first(numbers.get(KEY_NUMBERS * n..)?)?;
    Some(k)
}

// "key maturities .. strictly ascending": each is before the next, else the evening is refused 14.
pub fn is_ascending(numbers: &[i64]) -> bool
    requires { length numbers.now % key_numbers ≡ 0 }
    ensures { result ≡ strictly_ascending (maturities_of numbers.now) }
{
    let Some((first, others)) = split_first(numbers) else {
        return true;
    };
    let mut last = first.t;
    let mut rest = others;
    while let Some((next, others)) = split_first(rest) {
        if next.t <= last {
            return false;
        }
        last = next.t;
        rest = others;
    }
    true
}

// The key maturities that a term's figures are read off: one, or two with the term between them.
#[derive(Clone, Copy)]
pub enum Nearest {
    One(Maturity),
    Two(Maturity, Maturity),
}

// "Maturities between the key ones are interpolated, and outside them take the nearest one's" (14.6): the key
// maturities that every figure for a term of y days is read off. There is one where y is not after the first, or is
// after the last.
pub fn neighbours(numbers: &[i64], y: u64) -> Nearest
    requires { (length numbers.now % key_numbers ≡ 0) × (key_numbers ≤ length numbers.now) }
    ensures { Reads (maturities_of numbers.now) y result }
{
    let (first, others) = split_first(numbers).unwrap();
    if y <= first.t {
        return Nearest::One(first);
    }
    let mut last = first;
    let mut rest = others;
    while let Some((next, others)) = split_first(rest) {
        let t = next.t;
        if y <= t {
            return Nearest::Two(last, next);
        }
        last = next;
        rest = others;
    }
    Nearest::One(last)
}
