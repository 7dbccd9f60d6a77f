// What the benchmark hands to the proved rules, and what it adds up of a record: one security, read as the evening
// reads an `admit` and admitted by its rule (`record_calls::admission`), and its days. `sheet` evaluates them, and
// `sheet_answers` asks the rest of them.
#![tactic(auto)]

use exact::unsigned;
use paper::{Day, Record, Term};
use record_answers::Slot;
use text_protocol::admit_place;

// The numbers of an admission as the evening's `admit` has them.
pub const ADMISSION_NUMBERS: usize = admit_place::COUNT;

// The numbers of a day with three terms alike: DAY B M K RRCL RRCH.
pub const DAY_NUMBERS: usize = 6;

// A day so many days later.
pub fn day_of(y: &[i64; DAY_NUMBERS], later: u64) -> Day {
    let term = Term {
        k: unsigned(y[3]),
        low: y[4],
        high: y[5],
    };
    Day {
        day: unsigned(y[0]).wrapping_add(later),
        b: unsigned(y[1]),
        m: unsigned(y[2]),
        terms: [term; Record::TERMS],
    }
}

// The record as it is found in the first of 512 slots.
pub fn first(r: Record) -> Slot {
    Slot {
        count: Record::SLOTS_MOST,
        at: 0,
        rec: r,
    }
}

// The record of a security whose numbers are in range.
pub fn admitted(x: &[i64; ADMISSION_NUMBERS]) -> Record {
    record_calls::admission::admitted(
        record_answers::absent(Record::SLOTS_MOST),
        first(record_answers::blank()),
        text_call::admission_of(x),
    )
    .rec
}

// What is added up, so that no figure can be left out: the evaluation, the volatility, and a limit.
pub fn figure(r: Record) -> u64 {
    r.p1.units.wrapping_add(r.s).wrapping_add(r.bands[2].upper)
}
