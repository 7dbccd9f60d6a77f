// W-207: the public calls that say why an evaluation would be answered as it is, beside the calls of `desk`. They leave
// the table, which is lent as `&`: each takes the slot, and asks its rule by value.
ghost use Rattle.std.specs.Prelude.{◌≡◌};
ghost use Rattle.paper.specs.Terms.{day_of};
ghost use Rattle.paper_reasons.specs.Why.{why_on};
ghost use Rattle.record_reasons.specs.Whys.{why_slot};

use crate::take;
use paper::{AskedDay, Day, Record};
use paper_reasons::Why;
use record_answers::Slot;

// Of an evaluation of a day.
pub fn why(t: &[Record], id: u64, d: Day, rows: &[i64]) -> Why
    ensures { result ≡ why_on t.now id d rows.now }
{
    record_reasons::why(take(t, id), d, rows)
}

// The rule, on the day that is asked for.
fn asked(s: Slot, a: AskedDay, rows: &[i64]) -> Why
    ensures { result ≡ why_slot s (day_of a) rows.now }
{
    record_reasons::why(s, interest_terms::day_of(a), rows)
}

// Of an evaluation as it is asked for.
pub fn why_asked(t: &[Record], id: u64, a: AskedDay, rows: &[i64]) -> Why
    ensures { result ≡ why_on t.now id (day_of a) rows.now }
{
    asked(take(t, id), a, rows)
}
