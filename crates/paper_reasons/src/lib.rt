// W-207, "Say why": the values that a reason is said with. specs/ defines what is right; proofs/ proves it. It may use
// `paper` and `paper_desk`. A reason's `None` is the word `none`, where there is nothing to name: it is printed and
// numbered with the others, so it is a variant, and a reason is no `Option`.
#![tactic(auto)]

use paper::Verdict;

// "which figure set the price (close, bid, ask, or yesterday)"
#[derive(Clone, Copy)]
pub enum PriceReason {
    None,
    Close,
    Bid,
    Ask,
    Yesterday,
}

// "which weight": 0, a_up or a_down
#[derive(Clone, Copy)]
pub enum WeightReason {
    None,
    Zero,
    Up,
    Down,
}

// "whether the replacement won"
#[derive(Clone, Copy)]
pub enum ReplacementReason {
    None,
    Yes,
    No,
}

// "whether the tentative rate rose, fell, waited or was level"
#[derive(Clone, Copy)]
pub enum TentativeReason {
    None,
    Rose,
    Fell,
    Waited,
    Level,
}

// "for each level whether the requirement, the minimum or the maximum set it"
#[derive(Clone, Copy)]
pub enum LevelReason {
    None,
    Requirement,
    Minimum,
    Maximum,
}

// "the first row, else term, at fault, or none": rows count from 1, terms are 0, 1, 2. Which of the two it is says what
// is at fault, and neither is a value beside an error; so it is no `Result`.
#[derive(Clone, Copy)]
pub enum Fault {
    Row(u64),
    Term(u64),
}

// The figures that decided, with isEWMA yes: document 01's letters, and s before the evaluation.
#[derive(Clone, Copy)]
pub struct Deciding {
    pub r: u64, // millionths, 0 to 1,000,000: the move
    pub before: u64, // millionths, 0 to 1,000,000: the volatility before
    pub x: u64, // millionths, 0 to 1,000,000: the root of the weighted mean
    pub y: u64, // millionths, 0 to 1,000,000: the replacement, 0 where it is not taken
    pub s: u64, // millionths, 0 to 1,000,000: the volatility now
    pub t: u64, // bp: the least step, before any wait
}

// The reasons of an accepted evaluation; all `None` of a refused one.
#[derive(Clone, Copy)]
pub struct Reasons {
    pub price: PriceReason,
    pub weight: WeightReason,
    pub replacement: ReplacementReason,
    pub tentative: TentativeReason,
    pub level1: LevelReason,
    pub level2: LevelReason,
    pub level3: LevelReason,
    pub figures: Option<Deciding>, // with isEWMA no, no figure decided
}

// Why an evaluation is answered as it is. `WhyTrue` (specs/Truth) speaks of each part of every answer, so it is no
// `Result`.
#[derive(Clone, Copy)]
pub struct Why {
    pub verdict: Verdict,
    pub fault: Option<Fault>,
    pub reasons: Reasons,
}
