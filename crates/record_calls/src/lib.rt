// The rule of whatever is asked about a security (`effect_of`), by value: the slot found and the inputs in, an effect
// out. Evaluations, quotes and moves have crates of their own (`record_evaluation`, `record_monitoring`); the rules of
// the other asks stand here. 1 comes first whatever is asked, so `effect_known` judges it; each rule is asked of a slot
// that is known, and judges the refusals behind 1 in the paper's order. So the test of a sound record stands once on the
// way of a call, and a caller that knows its outcome goes without it.
#![tactic(auto)]

pub mod admission; // the rule of an admission
mod floats; // the price of an outside source's float
pub mod good; // a record that every accepted call keeps sound

ghost use Rattle.std.specs.Prelude.{◌≡◌, true};
ghost use Rattle.paper.specs.Floats.{price_of};
ghost use Rattle.paper_desk.specs.External.{Receipt, units_made};
ghost use Rattle.paper_desk.specs.Desk.{Ask, ask_of};
ghost use Rattle.record_answers.specs.Effects.{is_known, effect_of};
ghost use Rattle.record_calls.specs.Receipts.{Receives};

use crate::floats::price_of;
use paper::{AskedAbout, External, NearSeconds, Notice, Outside, Record, Session, Verdict};
use record_answers::{Effect, Slot};

// W-210, the opening of the evening: 10, "19, evening opened twice, after 10". It "clears the near seconds and keeps
// c".
pub fn opened(s: Slot) -> Effect
    requires { is_known s ≡ true }
    ensures { result ≡ effect_of s Ask.opening }
{
    let count = s.count;
    let r = s.rec;
    let standing = r.standing;
    let session = r.session;
    if !record_soundness::is_live(standing) {
        return record_answers::refused(count, Verdict::NotLive);
    }
    if alerts::session::is_evening(session) {
        return record_answers::refused(count, Verdict::OpenedTwice);
    }
    let none = NearSeconds {
        top: None,
        bottom: None,
    };
    let near = [none; Record::TERMS];
    let external = r.external;
    let rec = record_writing::watching(r, near, r.second, Session::Evening(0), external);
    record_answers::written(s.at, rec)
}

// ---- a receipt of outside prices (W-211)

// The units of a float's price, and 0 where it has none.
fn units_of(x: f64) -> u64
    ensures { result ≡ units_made (price_of x) }
{
    let made = price_of(x);
    match made {
        Some(price) => price.units,
        None => 0,
    }
}

// 20 and what is written. `bad` says whether a float that was received has no price, and `kept` is the pair that the
// record keeps where none is bad.
fn received_as(s: Slot, bad: bool, kept: External) -> Effect
    requires { is_known s ≡ true }
    ensures { Receives s «bad» kept result }
{
    let count = s.count;
    let r = s.rec;
    if bad {
        return record_answers::refused(count, Verdict::BadFloat);
    }
    let near = r.near;
    let session = r.session;
    let rec = record_writing::watching(r, near, r.second, session, kept);
    record_answers::written(s.at, rec)
}

// "Both sent together replace the kept pair": one bad float of two refuses both.
pub fn received(s: Slot, sent: Outside) -> Effect
    requires { is_known s ≡ true }
    ensures { result ≡ effect_of s (Ask.receiving (Receipt.together sent)) }
{
    let bid = units_of(sent.bid);
    let ask = units_of(sent.ask);
    received_as(s, (bid == 0) | (ask == 0), External { bid, ask })
}

// "a notice changes one side, a withdrawal clears both".
pub fn notified(s: Slot, n: Notice) -> Effect
    requires { is_known s ≡ true }
    ensures { result ≡ effect_of s (Ask.receiving (Receipt.notice n)) }
{
    let r = s.rec;
    let kept = r.external;
    match n {
        Notice::Bid(x) => {
            let bid = units_of(x);
            received_as(s, bid == 0, External { bid, ask: kept.ask })
        }
        Notice::Ask(x) => {
            let ask = units_of(x);
            received_as(s, ask == 0, External { bid: kept.bid, ask })
        }
        Notice::Withdrawal => received_as(s, false, External { bid: 0, ask: 0 }),
    }
}

// "read 1", which is judged before. A read stores the record that it found, so it leaves the table as it was.
pub fn read(s: Slot) -> Effect
    requires { is_known s ≡ true }
    ensures { result ≡ effect_of s Ask.reading }
{
    let r = s.rec;
    record_answers::written(s.at, r)
}

// ---- the rule of each ask

// Whether 1 does not apply: nothing is tested where the caller knows it of the slot.
fn passes_1(s: Slot, known: bool) -> bool
    requires { known ≡ true → is_known s ≡ true }
    ensures { result ≡ is_known s }
{
    if known {
        return true;
    }
    record_answers::is_known(s)
}

// 1, and then the rule of the ask, for a caller that may know that 1 does not apply. An ask more has its arm here.
pub fn effect_known(s: Slot, known: bool, a: AskedAbout, rows: &[i64]) -> Effect
    requires { known ≡ true → is_known s ≡ true }
    ensures { result ≡ effect_of s (ask_of a rows.now) }
{
    let count = s.count;
    if !passes_1(s, known) {
        return record_answers::refused(count, Verdict::NoSuchId);
    }
    match a {
        AskedAbout::Evaluate(d) => record_evaluation::evaluated(s, interest_terms::day_of(d), rows),
        AskedAbout::Quote(q) => record_monitoring::quoted(s, q),
        AskedAbout::Move(side) => record_monitoring::moved(s, side),
        AskedAbout::Read => read(s),
        AskedAbout::Open => opened(s),
        AskedAbout::Receive(sent) => received(s, sent),
        AskedAbout::Notify(n) => notified(s, n),
    }
}

// The same for a caller that knows nothing of the slot.
pub fn effect_of(s: Slot, a: AskedAbout, rows: &[i64]) -> Effect
    ensures { result ≡ effect_of s (ask_of a rows.now) }
{
    effect_known(s, false, a, rows)
}
