// What is found of an id in a table, and what a call makes of it: the slot, the effect, and the answer of an effect.
// The rules of the calls (`record_evaluation`, `record_monitoring`, `record_calls`) stand on it.
#![tactic(auto)]

ghost use Rattle.std.specs.Prelude.{◌≡◌};
ghost use Rattle.paper_desk.specs.Desk.{blank, saying, showing, alerting};
ghost use Rattle.record_answers.specs.Effects.{holds, is_known, refused_effect, answer_of};

use paper::{
    Answer, External, Limits, Moves, NearSeconds, Price, Rate, Record, Session, Standing, Statics,
    Tentative, Term, Verdict,
};

// What is found of an id in a table: how many slots there are, the place of the first with the id, or their number, and
// its record, or a blank.
#[derive(Clone, Copy)]
pub struct Slot {
    pub count: usize,
    pub at: usize,
    pub rec: Record,
}

// What a call replies, of the record that its effect has: a number alone, which is a refusal's or an admission's 0; the
// record; or the two alerts of a quote, the top's and the bottom's.
#[derive(Clone, Copy)]
pub enum Replied {
    Number(Verdict),
    TheRecord,
    Alerts(bool, bool),
}

// Where to store, what, and what to reply. A refusal stores past the end. The record stands here once: `answered` makes
// the answer of it.
#[derive(Clone, Copy)]
pub struct Effect {
    pub at: usize,
    pub rec: Record,
    pub replied: Replied,
}

// "all figures 0 (flags no, nothing near, admitted only)", in the main session. A price of 0 is none of document 01's
// range, so no constructor makes it.
pub fn blank() -> Record
    ensures { result ≡ blank }
{
    let price = Price { units: 0 };
    Record {
        id: 0,
        statics: Statics::default(),
        standing: Standing::Admitted(0),
        p1: price,
        p2: price,
        s: 0,
        tentative: Tentative::default(),
        rates: [Rate::default(); Record::LEVELS],
        ranges: [Limits::default(); Record::LEVELS],
        terms: [Term::default(); Record::TERMS],
        bands: [Limits::default(); Record::TERMS],
        moves: Moves::default(),
        near: [NearSeconds::default(); Record::TERMS],
        second: 0,
        session: Session::Main,
        external: External::default(),
    }
}

// What is found of an id that no slot has.
pub fn absent(n: usize) -> Slot
    ensures { result ≡ record { count = n; at = n; rec = blank } }
{
    Slot {
        count: n,
        at: n,
        rec: blank(),
    }
}

// ---- answers and effects

// "A refusal returns its number with all figures 0"; "an admission the number 0 alone".
pub fn saying(v: Verdict) -> Answer
    ensures { result ≡ saying v }
{
    Answer {
        verdict: v,
        rec: blank(),
        top: false,
        bottom: false,
    }
}

// "Accepted evaluations, moves and reads return the record as it then stands"; W-210: "An accepted opening returns the
// record", and so does each receipt of outside prices (W-211).
fn showing(r: Record) -> Answer
    ensures { result ≡ showing r }
{
    Answer {
        verdict: Verdict::Done,
        rec: r,
        top: false,
        bottom: false,
    }
}

// "The answer has two yes/no alerts, one for the top and one for the bottom."
fn alerting(top: bool, bottom: bool) -> Answer
    ensures { result ≡ alerting «top» «bottom» }
{
    Answer {
        verdict: Verdict::Done,
        rec: blank(),
        top,
        bottom,
    }
}

// What an effect answers. Each call of the desk makes its answer here.
pub fn answered(o: Effect) -> Answer
    ensures { result ≡ answer_of o }
{
    match o.replied {
        Replied::Number(v) => saying(v),
        Replied::TheRecord => showing(o.rec),
        Replied::Alerts(top, bottom) => alerting(top, bottom),
    }
}

pub fn refused(count: usize, v: Verdict) -> Effect
    ensures { result ≡ refused_effect count v }
{
    Effect {
        at: count,
        rec: blank(),
        replied: Replied::Number(v),
    }
}

// A record that is stored, and answered as it then stands.
pub fn written(at: usize, r: Record) -> Effect
    ensures { result ≡ record { at = at; rec = r; replied = Replied.TheRecord } }
{
    Effect {
        at,
        rec: r,
        replied: Replied::TheRecord,
    }
}

// ---- what is found

pub fn holds(s: Slot) -> bool
    ensures { result ≡ holds s }
{
    s.at < s.count
}

// 1: a table of no slots or over 512, an id that no slot has, a damaged record.
pub fn is_known(s: Slot) -> bool
    ensures { result ≡ is_known s }
{
    record_soundness::valid_slots(s.count) & holds(s) & record_soundness::sound(s.rec)
}
