// The values of document 02, W-206, bonds: what is given, and what is answered. specs/ defines what is right, with
// worked bonds in BondCases.antt; proofs/ proves it. A net evaluation and a limit are in hundredths of a per cent of
// the face value; money is in units, as a price is. It may use `paper` and `paper_desk`.
#![tactic(auto)]

use paper::{AskedTerm, Limits, Rate, Record, Tentative, Verdict};

// The statics that a bond uses, as numbers: ranges and orders are the shares', yes is 1 and no is 0.
#[derive(Clone, Copy)]
pub struct BondStatics {
    pub h: u64, // bp, 1 to 1,000
    pub q: u64, // hundredths, 100 to 1,000
    pub wait: u64, // trading days, 1 to 250
    pub rh1: u64, // days, 1 to 5
    pub rh2: u64, // days, rh1 to 30
    pub rh3: u64, // days, rh2 to 30
    pub liq: u64, // bp, 0 to 500
    pub min1: u64, // bp, 0 to min2, a multiple of h
    pub min2: u64, // bp, min1 to min3, a multiple of h
    pub min3: u64, // bp, min2 to smax, a multiple of h
    pub smax: u64, // bp, the bond maximum: min3 to 10,000, a multiple of h
    pub xpr: u64, // hundredths, 50 to 1,000
    pub pchmax: u64, // bp, 0 to 10,000
    pub pclmax: u64, // bp, 0 to 10,000
    pub monitoring: u64, // 0 or 1
    pub ewma: u64, // 0 or 1
}

// A bond as it is given, beside its cash flows. Each term has a name, since it has words of its own in a line (K0, K1,
// K2: `bond_of` of text_protocol).
#[derive(Clone, Copy)]
pub struct Bond {
    pub m: u64, // non-trading days ahead, 0 to 10
    pub net: u64, // the net evaluation, in hundredths of a per cent, 1 to 30,000
    pub face: u64, // the face value, in units, 0 to 10^10
    pub accrued: u64, // the accrued interest, in units, 0 to 10^10
    pub s: u64, // the volatility, in millionths, 0 to 1,000,000
    pub tentative: Tentative, // bp, as a share's (W-208); its age, 0 to 250
    pub statics: BondStatics,
    pub first: AskedTerm, // three terms as a day's: days, and a repo band given or worked out
    pub second: AskedTerm,
    pub third: AskedTerm,
    pub repo: i64, // REPORate, in bp, -9,999 to 9,999
}

impl Bond {
    pub const NET_MOST: u64 = 30_000; // hundredths of a per cent

    pub const MONEY_MOST: u64 = 10_000_000_000; // units

    // "their 20 per cent": how far a limit off the book may be from the evaluation, in basis points.
    pub const OFF_BOOK_BP: u64 = 2_000;
}

// A cash flow, its numbers in range.
#[derive(Clone, Copy)]
pub struct Flow {
    pub day: u64, // days ahead, 1 to 30
    pub amount: u64, // units, 0 to 10^10
}

impl Flow {
    pub const NUMBERS: usize = 2;

    pub const ALL_NUMBERS_MOST: usize = 8;

    pub const DAY_LEAST: i64 = 1; // days ahead

    pub const DAY_MOST: i64 = 30; // days ahead
}

// The limits of a term, in hundredths of a per cent: on the book, and for trades off it.
#[derive(Clone, Copy)]
pub struct BondLimits {
    pub band: Limits,
    pub off: Limits,
}

// What the call answers: the gross evaluation, the tentative rate, a rate a level, and limits a term. A refusal has its
// verdict and every figure 0: `bond_zero` of `Demand1Beside` (demands/specs) speaks of those zeros, so it is no
// `Result`. Rates go by level and limits by term, so they are no pairs.
#[derive(Clone, Copy)]
pub struct BondAnswer {
    pub verdict: Verdict,
    pub gross: u64, // units
    pub tentative: Tentative,
    pub rates: [Rate; Record::LEVELS],
    pub limits: [BondLimits; Record::TERMS],
}
