// The rule of an admission, by value: the two slots found and what is given in, an effect out. It judges the refusals
// in the paper's order.
ghost use Rattle.std.specs.Prelude.{◌≡◌};
ghost use Rattle.record_answers.specs.Effects.{admit_effect};

use paper::{Admission, Price, Verdict};
use record_answers::{Effect, Replied, Slot};

// 4 of what else an admission gives, 2, 3 and what is written, at the two latest evaluations that it gives.
fn admitted_at(s: Slot, e: Slot, a: Admission, p1: Price, p2: Price) -> Effect
    requires { (p1 ≡ record { units = a.p1 }) × (p2 ≡ record { units = a.p2 }) }
    ensures { result ≡ admit_effect s e a }
{
    let count = s.count;
    if !(record_soundness::valid_slots(count) & inputs::valid_admission(a)) {
        return record_answers::refused(count, Verdict::AdmissionOutOfRange);
    }
    if record_answers::holds(s) {
        return record_answers::refused(count, Verdict::AlreadyAdmitted);
    }
    if !record_answers::holds(e) {
        return record_answers::refused(count, Verdict::NoEmptySlot);
    }
    let rec = record_writing::admitted(a, p1, p2);
    Effect {
        at: e.at,
        rec,
        replied: Replied::Number(Verdict::Done), // "an admission the number 0 alone"
    }
}

// "admit 4, 2, 3": s is the slot with the id, e the first empty one. A price out of range is an admission value out of
// range (4).
pub fn admitted(s: Slot, e: Slot, a: Admission) -> Effect
    ensures { result ≡ admit_effect s e a }
{
    let count = s.count;
    let later = Price::new(a.p1);
    let earlier = Price::new(a.p2);
    match later {
        None => record_answers::refused(count, Verdict::AdmissionOutOfRange),
        Some(p1) => match earlier {
            None => record_answers::refused(count, Verdict::AdmissionOutOfRange),
            Some(p2) => admitted_at(s, e, a, p1, p2),
        },
    }
}
