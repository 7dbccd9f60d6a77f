// W-207, "Say why", by value: the slot found and the inputs in, why an evaluation of them is answered as it is out. The
// evaluation itself is worked out once, by the rule that `evaluate` has (`record_evaluation::worked`).
#![tactic(auto)]

mod faults; // which row or term is at fault in a refused evaluation
pub mod fields; // which number is at fault in an admission that is refused 4
pub mod reasons; // which figure set each of the record's

ghost use Rattle.std.specs.Prelude.{◌≡◌};
ghost use Rattle.paper_reasons.specs.Why.{no_reasons};
ghost use Rattle.record_reasons.specs.Whys.{why_slot};

use crate::faults::fault_of;
use crate::reasons::reasons_of;
use paper::Day;
use paper_reasons::{
    LevelReason, PriceReason, Reasons, ReplacementReason, TentativeReason, WeightReason, Why,
};
use record_answers::Slot;

// Of a refused evaluation no figure has a reason.
pub fn no_reasons() -> Reasons
    ensures { result ≡ no_reasons }
{
    Reasons {
        price: PriceReason::None,
        weight: WeightReason::None,
        replacement: ReplacementReason::None,
        tentative: TentativeReason::None,
        level1: LevelReason::None,
        level2: LevelReason::None,
        level3: LevelReason::None,
        figures: None,
    }
}

// Why an evaluation of a day is answered as it is, of the slot that was found.
pub fn why(s: Slot, d: Day, rows: &[i64]) -> Why
    ensures { result ≡ why_slot s d rows.now }
{
    let old = s.rec;
    let w = record_evaluation::worked(s, d, rows);
    let verdict = w.verdict;
    let new = w.made;
    let bands = new.bands;
    let figures = w.figures;
    let fault = fault_of(verdict, d, rows, bands);
    if !verdict.is_done() {
        let reasons = no_reasons();
        return Why {
            verdict,
            fault,
            reasons,
        };
    }
    let reasons = reasons_of(old, d, new, figures);
    Why {
        verdict,
        fault,
        reasons,
    }
}
