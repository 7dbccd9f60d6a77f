// The rules of the two calls that only a monitored security takes, a quote and a move, by value: the slot found and the
// inputs in, an effect out. Each judges the refusals behind 1 in the paper's order: `record_calls::effect_of` judges 1.
#![tactic(auto)]

ghost use Rattle.std.specs.Prelude.{◌≡◌, true};
ghost use Rattle.paper.specs.Ranges.{valid_quote};
ghost use Rattle.paper.specs.Verdicts.{first_of};
ghost use Rattle.paper_desk.specs.Desk.{Ask, the_alerts, near_on, quoted};
ghost use Rattle.record_answers.specs.Effects.{is_known, replied_on, effect_of};
ghost use Rattle.record_monitoring.specs.SharedChecks.{shared_checks, passed_by};

use paper::{NearSeconds, Quote, Record, Side, Verdict};
use record_answers::{Effect, Replied, Slot};

// 6, 10 and 11 behind 1, which a quote and a move have in this order: the first that applies.
fn shared_checks(s: Slot, in_range: bool) -> Result<(), Verdict>
    requires { is_known s ≡ true }
    ensures { result ≡ passed_by (first_of (shared_checks (is_known s) in_range s.rec)) }
{
    if !in_range {
        return Err(Verdict::OutOfRange);
    }
    if !record_soundness::is_live(s.rec.standing) {
        return Err(Verdict::NotLive);
    }
    if !s.rec.statics.monitoring {
        return Err(Verdict::NotMonitored);
    }
    Ok(())
}

// "One quote touches one term only."
fn watched(r: Record, q: Quote, n: NearSeconds) -> Record
    requires q_value { valid_quote q ≡ true }
    requires n_value { n ≡ near_on r q }
    ensures { result ≡ quoted r q }
{
    let term = q.term as usize;
    let mut near = r.near;
    near[term] = n;
    Record {
        near,
        second: q.second,
        ..r
    }
}

// "a quote its two alerts": of the near seconds after it, by the session's own seconds.
fn alerts_on(r: Record, q: Quote, n: NearSeconds) -> Replied
    requires { n ≡ near_on r q }
    ensures { result ≡ replied_on (the_alerts q) r }
{
    let u = alerts::session::alert_seconds(r.statics, r.session);
    Replied::Alerts(
        alerts::alert(u, n.top, q.second),
        alerts::alert(u, n.bottom, q.second),
    )
}

// "quote 1, 6, 10, 11, 13".
pub fn quoted(s: Slot, q: Quote) -> Effect
    requires { is_known s ≡ true }
    ensures { result ≡ effect_of s (Ask.quoting q) }
{
    let r = s.rec;
    if let Err(v) = shared_checks(s, inputs::valid_quote(q)) {
        return record_answers::refused(s.count, v);
    }
    if q.second < r.second {
        return record_answers::refused(s.count, Verdict::SecondEarlier);
    }
    let n = record_writing::near_on(r, q);
    Effect {
        at: s.at,
        rec: watched(r, q, n),
        replied: alerts_on(r, q, n),
    }
}

// "move 1, 6, 10, 11, 12"; W-210: "18, .. after 11 and before 12". The side is a number, since one that names no side is
// refused (6, `moving` of the paper).
pub fn moved(s: Slot, side: u64) -> Effect
    requires { is_known s ≡ true }
    ensures { result ≡ effect_of s (Ask.moving side) }
{
    let r = s.rec;
    if let Err(v) = shared_checks(s, inputs::valid_side(side)) {
        return record_answers::refused(s.count, v);
    }
    if !alerts::session::move_allowed(r.statics, r.session) {
        return record_answers::refused(s.count, Verdict::NoEveningMove);
    }
    let named = Side::from(side);
    if limits::count_of(named, r.moves) == Record::MOVES_MOST {
        return record_answers::refused(s.count, Verdict::MovesUsedUp);
    }
    record_answers::written(s.at, record_writing::moved(r, named))
}
