// W-212: the message of each record. Kind 1 is of an admission's id and statics, 2, 3 and 5 of a record after an
// evaluation, 5 with its reasons, 4 of a record after a move of a side, and 8 of a record after an opening.
#![tactic(auto)]

ghost use Rattle.std.specs.Prelude.{◌≡◌, map, ℕ, ◌+◌, ◌<◌, ◌≤◌, length, set};
ghost use Rattle.paper.specs.Ranges.{side_number};
ghost use Rattle.paper_desk.specs.Sides.{limit_on};
ghost use Rattle.paper_messages.specs.Fields.{places};
ghost use Rattle.paper_messages.specs.Records.{value_of, message, statics_message, rates_message, bands_message};
ghost use Rattle.paper_messages.specs.Records.{move_message, reasons_message, session_message, price_number};
ghost use Rattle.paper_messages.specs.Records.{weight_number, replacement_number, tentative_number, level_number};

use paper::{Limits, Record, Side, Statics, Term};
use paper_messages::Message;
use paper_reasons::{
    LevelReason, PriceReason, Reasons, ReplacementReason, TentativeReason, WeightReason,
};
use record_soundness::last_day;

// Where the RRCL of each term stands in a message of kind 3: behind ID, DAY and the first K, and each other behind a
// term's numbers K RRCL RRCH LOWER UPPER.
const TERM_NUMBERS: usize = 5;

const FIRST_LOW: usize = 3;

const SECOND_LOW: usize = FIRST_LOW + TERM_NUMBERS;

const THIRD_LOW: usize = SECOND_LOW + TERM_NUMBERS;

// A number as a field's value: one past the signed numbers is out of every range, and stands as -1.
pub fn value_of(n: u64) -> i64
    ensures { result ≡ value_of n }
{
    i64::try_from(n).unwrap_or(-1)
}

// The message of a kind with these values, and zeros past the last.
pub fn message(kind: u64, values: &[i64]) -> Message
    requires { length values.now ≤ places }
    ensures { result ≡ message kind values.now }
{
    let mut fields = [0; Message::PLACES];
    fields[..values.len()].copy_from_slice(values);
    Message { kind, fields }
}

// The message of a kind whose values are these numbers.
fn message_of<const N: usize>(kind: u64, numbers: [u64; N]) -> Message
    requires { N ≤ places }
    ensures { result ≡ message kind (map value_of numbers.entry) }
{
    message(kind, &numbers.map(value_of))
}

// What a message says as a number: a side, "0 upper or 1 lower"; and a reason, 0 for none, then 1, 2, .. in the order of its
// list.
trait Numbered {
    ghost number_of: { Self → ℕ };

    fn number(self) -> u64
        ensures { result ≡ number_of self };
}

impl Numbered for Side {
    ghost number_of = { side_number };

    fn number(self) -> u64 {
        self as u64
    }
}

impl Numbered for PriceReason {
    ghost number_of = { price_number };

    fn number(self) -> u64 {
        self as u64
    }
}

impl Numbered for WeightReason {
    ghost number_of = { weight_number };

    fn number(self) -> u64 {
        self as u64
    }
}

impl Numbered for ReplacementReason {
    ghost number_of = { replacement_number };

    fn number(self) -> u64 {
        self as u64
    }
}

impl Numbered for TentativeReason {
    ghost number_of = { tentative_number };

    fn number(self) -> u64 {
        self as u64
    }
}

impl Numbered for LevelReason {
    ghost number_of = { level_number };

    fn number(self) -> u64 {
        self as u64
    }
}

fn limit_on(side: Side, x: Limits) -> u64
    ensures { result ≡ limit_on side x }
{
    match side {
        Side::Upper => x.upper,
        Side::Lower => x.lower,
    }
}

// A yes or no is 1 or 0: "yes/no one (0 or 1)".
pub fn statics_message(id: u64, st: Statics) -> Message
    ensures { result ≡ statics_message id st }
{
    message_of(
        Message::STATICS,
        [
            id,
            st.lot,
            st.h,
            st.q,
            st.aup,
            st.adown,
            st.wait,
            st.rh1,
            st.rh2,
            st.rh3,
            st.liq,
            st.min1,
            st.min2,
            st.min3,
            st.smax,
            st.xpr,
            st.shift,
            st.pchmax,
            st.pclmax,
            st.w,
            st.u,
            u64::from(st.monitoring),
            u64::from(st.ewma),
            st.uevening,
            u64::from(st.autochange),
            st.eveningmax,
            u64::from(st.useexternal),
        ],
    )
}

pub fn rates_message(r: Record) -> Message
    ensures { result ≡ rates_message r }
{
    message_of(
        Message::RATES,
        [
            r.id,
            last_day(r.standing),
            r.p1.units,
            r.s,
            r.tentative.bp,
            r.tentative.age,
            r.rates[0].bp,
            r.rates[1].bp,
            r.rates[2].bp,
            r.ranges[0].upper,
            r.ranges[1].upper,
            r.ranges[2].upper,
            r.ranges[0].lower,
            r.ranges[1].lower,
            r.ranges[2].lower,
        ],
    )
}

// A term's repo band at its two places: these numbers are signed already.
fn with_repo(fields: [i64; Message::PLACES], at: usize, term: Term) -> [i64; Message::PLACES]
    requires { at + 1 < places }
    ensures { result ≡ set (set fields at term.low) (at + 1) term.high }
{
    let mut fields = fields;
    fields[at] = term.low;
    fields[at + 1] = term.high;
    fields
}

pub fn bands_message(r: Record) -> Message
    ensures { result ≡ bands_message r }
{
    let m = message_of(
        Message::BANDS,
        [
            r.id,
            last_day(r.standing),
            r.terms[0].k,
            0,
            0,
            r.bands[0].lower,
            r.bands[0].upper,
            r.terms[1].k,
            0,
            0,
            r.bands[1].lower,
            r.bands[1].upper,
            r.terms[2].k,
            0,
            0,
            r.bands[2].lower,
            r.bands[2].upper,
        ],
    );
    let fields = with_repo(m.fields, FIRST_LOW, r.terms[0]);
    let fields = with_repo(fields, SECOND_LOW, r.terms[1]);
    let fields = with_repo(fields, THIRD_LOW, r.terms[2]);
    Message {
        kind: Message::BANDS,
        fields,
    }
}

pub fn move_message(r: Record, side: Side) -> Message
    ensures { result ≡ move_message r side }
{
    message_of(
        Message::MOVE,
        [
            r.id,
            side.number(),
            limits::count_of(side, r.moves),
            limit_on(side, r.ranges[0]),
            limit_on(side, r.ranges[1]),
            limit_on(side, r.ranges[2]),
            limit_on(side, r.bands[0]),
            limit_on(side, r.bands[1]),
            limit_on(side, r.bands[2]),
        ],
    )
}

pub fn reasons_message(r: Record, y: Reasons) -> Message
    ensures { result ≡ reasons_message r y }
{
    message_of(
        Message::REASONS,
        [
            r.id,
            last_day(r.standing),
            y.price.number(),
            y.weight.number(),
            y.replacement.number(),
            y.tentative.number(),
            y.level1.number(),
            y.level2.number(),
            y.level3.number(),
        ],
    )
}

pub fn session_message(r: Record) -> Message
    ensures { result ≡ session_message r }
{
    message_of(Message::SESSION, [r.id, last_day(r.standing)])
}
