// The calls over the table, a lent row of records. Only `place_of`, `take_at` and `put` touch the row. Each call takes
// the slot, asks its rule by value, stores what the rule says and makes the answer of it, with no branch of its own: a
// refusal is stored past the end, where nothing is. A slot goes by its place, as the table after a call does (`set`).
#![tactic(auto)]

pub mod reasons; // the public calls that say why

ghost use Rattle.std.specs.Prelude.{◌≡◌, true, set};
ghost use Rattle.paper_desk.specs.Desk.{Call, ask_of, place};
ghost use Rattle.record_answers.specs.Effects.{slot_found, is_known};
ghost use Rattle.desk.specs.Promises.{Promised};
ghost use Rattle.desk.specs.Guesses.{slot_at, is_of, place_near, good_at, DoneAt};

use paper::{Admission, Answer, AskedAbout, Record};
use record_answers::Slot;
use record_calls::good::is_good;

// "id 0 marks an empty slot"
const EMPTY: u64 = 0;

// The place of the first slot with an id, or the number of slots: "Where an id stands in several slots the first alone
// counts". The walk is a function of its own, because its loop stays small where it does not hold the copy of a record.
pub fn place_of(t: &[Record], id: u64) -> usize
    ensures { result ≡ place t.now id }
{
    t.iter().position(|r| r.id == id).unwrap_or(t.len())
}

// The slot at a place, and the record in it.
pub fn take_at(t: &[Record], i: usize) -> Slot
    ensures { result ≡ slot_at t.now i }
{
    if i < t.len() {
        return Slot {
            count: t.len(),
            at: i,
            rec: t[i],
        };
    }
    record_answers::absent(t.len())
}

// The first slot with an id, and the record in it.
pub fn take(t: &[Record], id: u64) -> Slot
    ensures { result ≡ slot_found t.now id }
{
    take_at(t, place_of(t, id))
}

// Whether a slot has an id.
fn is_of(s: Slot, id: u64) -> bool
    ensures { result ≡ is_of s id }
{
    record_answers::holds(s) & (s.rec.id == id)
}

// The place of a security, with no walk where it is guessed. The id 0 is no security's, and nothing is searched for it.
pub fn place_near(t: &[Record], guess: usize, id: u64) -> usize
    ensures { result ≡ place_near t.now guess id }
{
    if id == EMPTY {
        return t.len();
    }
    if is_of(take_at(t, guess), id) {
        return guess;
    }
    place_of(t, id)
}

// Whether the slot at a place is good. Where the caller knows that it is, nothing is tested.
pub fn good_at(t: &[Record], at: usize, known: bool) -> bool
    ensures { result ≡ good_at t.now at known }
{
    known || is_good(take_at(t, at))
}

// The record is stored at a place. Past the end nothing is.
pub fn put(t: &mut [Record], i: usize, r: Record)
    ensures { t.new ≡ set t.old i r }
{
    if i < t.len() {
        t[i] = r;
    }
}

// "Admission takes the first empty slot."
pub fn admit(t: &mut [Record], a: Admission) -> Answer
    ensures { Promised (Call.admit a) t.old result t.new }
{
    let s = take(t, a.id);
    let e = take(t, EMPTY);
    let o = record_calls::admission::admitted(s, e, a);
    put(t, o.at, o.rec);
    record_answers::answered(o)
}

// Whatever is asked about the security with an id. The row figures of an evaluation are lent beside the ask.
pub fn about(t: &mut [Record], id: u64, a: AskedAbout, rows: &[i64]) -> Answer
    ensures { Promised (Call.about id (ask_of a rows.now)) t.old result t.new }
{
    let s = take(t, id);
    let o = record_calls::effect_of(s, a, rows);
    put(t, o.at, o.rec);
    record_answers::answered(o)
}

// The same, with no walk: the security is the one at a place.
pub fn about_at(t: &mut [Record], at: usize, a: AskedAbout, rows: &[i64]) -> Answer
    ensures { DoneAt at (ask_of a rows.now) t.old result t.new }
{
    let s = take_at(t, at);
    let o = record_calls::effect_of(s, a, rows);
    put(t, o.at, o.rec);
    record_answers::answered(o)
}

// The same, for a caller that may know that the slot there is known: its record is then not tested once more.
pub fn about_known(t: &mut [Record], at: usize, known: bool, a: AskedAbout, rows: &[i64]) -> Answer
    requires { known ≡ true → is_known (slot_at t.old at) ≡ true }
    ensures { DoneAt at (ask_of a rows.now) t.old result t.new }
{
    let s = take_at(t, at);
    let o = record_calls::effect_known(s, known, a, rows);
    put(t, o.at, o.rec);
    record_answers::answered(o)
}
