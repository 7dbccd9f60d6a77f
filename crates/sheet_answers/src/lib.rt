// What the benchmark measures of the answers, for Rust to link: the rule of an evaluation with the answer that it
// makes, asking why by the rule of `record_reasons`, and a reading. One loop over the days serves all: it is handed what
// is asked of a day.
#![tactic(auto)]

use paper::{Day, Record};
use paper_reasons::{
    LevelReason, PriceReason, ReplacementReason, TentativeReason, WeightReason, Why,
};
use record_answers::Effect;
use sheet_inputs::{ADMISSION_NUMBERS, DAY_NUMBERS, admitted, day_of, figure, first};

// What an accepted evaluation counts beside its seven reasons, so that the sum tells how many were accepted.
const ACCEPTED: u64 = 8;

// What is added up of an answer that says why: so much where the evaluation is accepted, and 1 for each reason that is
// the last of its list. The last is named where no earlier one holds, so that no condition can be left out.
fn lasts(why: Why) -> u64 {
    let reasons = why.reasons;
    let accepted = if why.verdict.is_done() { ACCEPTED } else { 0 };
    accepted
        + u64::from(matches!(reasons.price, PriceReason::Yesterday))
        + u64::from(matches!(reasons.weight, WeightReason::Down))
        + u64::from(matches!(reasons.replacement, ReplacementReason::No))
        + u64::from(matches!(reasons.tentative, TentativeReason::Level))
        + u64::from(matches!(reasons.level1, LevelReason::Maximum))
        + u64::from(matches!(reasons.level2, LevelReason::Maximum))
        + u64::from(matches!(reasons.level3, LevelReason::Maximum))
}

// The record that the next day finds, and what is added up of a day's answer.
#[derive(Clone, Copy)]
struct Asking {
    rec: Record,
    sum: u64,
}

// The record that an effect stores, and what is added up of the one that it answers.
fn asking_of(effect: Effect) -> Asking {
    Asking {
        rec: effect.rec,
        sum: figure(record_answers::answered(effect).rec),
    }
}

// What is asked of a record that is unknown, which none here is.
fn unknown(r: Record) -> Asking {
    Asking { rec: r, sum: 0 }
}

fn evaluated(r: Record, d: Day, rows: &[i64]) -> Asking {
    let s = first(r);
    if !record_answers::is_known(s) {
        return unknown(r);
    }
    asking_of(record_evaluation::evaluated(s, d, rows))
}

fn shown(r: Record) -> Asking {
    let s = first(r);
    if !record_answers::is_known(s) {
        return unknown(r);
    }
    asking_of(record_calls::read(s))
}

// What is asked of a security on each of so many days, of the record as the day before left it.
fn over_days<F: Fn(Record, Day) -> Asking>(
    ask: F,
    x: &[i64; ADMISSION_NUMBERS],
    y: &[i64; DAY_NUMBERS],
    days: u64,
) -> u64
    requires { F.IsAlwaysCallable ask }
{
    let mut r = admitted(x);
    let mut sum: u64 = 0;
    for later in 0..days {
        let asking = ask(r, day_of(y, later));
        r = asking.rec;
        sum = sum.wrapping_add(asking.sum);
    }
    sum
}

// One security evaluated on so many days, with the answer made on each.
#[unsafe(no_mangle)]
pub extern "C" fn nedrubal_answers(
    x: &[i64; ADMISSION_NUMBERS],
    y: &[i64; DAY_NUMBERS],
    rows: &[i64],
    days: u64,
) -> u64 {
    over_days(|r, d| evaluated(r, d, rows), x, y, days)
}

// One security evaluated on so many days, each time as it was admitted: what asking is measured beside.
#[unsafe(no_mangle)]
pub extern "C" fn nedrubal_evaluations(
    x: &[i64; ADMISSION_NUMBERS],
    y: &[i64; DAY_NUMBERS],
    rows: &[i64],
    days: u64,
) -> u64 {
    over_days(
        |r, d| Asking {
            rec: r,
            sum: evaluated(r, d, rows).sum,
        },
        x,
        y,
        days,
    )
}

// Why each of those evaluations is answered as it is.
#[unsafe(no_mangle)]
pub extern "C" fn nedrubal_whys(
    x: &[i64; ADMISSION_NUMBERS],
    y: &[i64; DAY_NUMBERS],
    rows: &[i64],
    days: u64,
) -> u64 {
    over_days(
        |r, d| Asking {
            rec: r,
            sum: lasts(record_reasons::why(first(r), d, rows)),
        },
        x,
        y,
        days,
    )
}

// The record judged sound and copied, so many times.
#[unsafe(no_mangle)]
pub extern "C" fn nedrubal_reads(
    x: &[i64; ADMISSION_NUMBERS],
    y: &[i64; DAY_NUMBERS],
    _rows: &[i64],
    days: u64,
) -> u64 {
    over_days(|r, _| shown(r), x, y, days)
}
