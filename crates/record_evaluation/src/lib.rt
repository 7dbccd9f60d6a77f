// The rule of an evaluation, by value: the slot found, the day and its rows in, an effect out. It judges the refusals
// behind 1 in the paper's order: `record_calls::effect_of` judges 1. Of a slot that may be unknown `worked` is asked.
#![tactic(auto)]

ghost use Rattle.std.specs.Prelude.{◌≡◌, true, not, ◌&&◌, get_or};
ghost use Rattle.paper.specs.Lists.{all_three};
ghost use Rattle.paper.specs.Ranges.{is_price, no_limits, sound, valid_day_numbers};
ghost use Rattle.paper_desk.specs.Limits.{crossed};
ghost use Rattle.paper_desk.specs.Desk.{used_by};
ghost use Rattle.evaluation.specs.Book.{is_in_range};
ghost use Rattle.record_answers.specs.Effects.{is_known, evaluate_effect};
ghost use Rattle.record_evaluation.specs.Workings.{unmade_by, worked_of, Prices};

use evaluation::{Book, PriceFigures, Priced, RowsRefused};
use paper::{Day, External, Limits, Price, Rate, Record, Tentative, Verdict};
use record_answers::{Effect, Slot};
use record_writing::figures::Made;

// 6 of a day: its numbers, and its rows as they were gathered.
fn valid_day(d: Day, gathered: Result<Book, RowsRefused>) -> bool
    ensures { result ≡ (valid_day_numbers d && is_in_range gathered) }
{
    inputs::valid_day_numbers(d) & evaluation::in_range(gathered)
}

// W-211: the outside prices that count in an evaluation, none where UseEXTERNAL is no.
fn used_by(r: Record) -> External
    ensures { result ≡ used_by r }
{
    let kept = r.external;
    if r.statics.useexternal {
        return kept;
    }
    External { bid: 0, ask: 0 }
}

// Whether no band is crossed (9).
fn in_order(bands: [Limits; Record::TERMS]) -> bool
    ensures { result ≡ all_three (λ k. not (crossed (get_or bands k no_limits))) }
{
    bands.iter().all(|band| !limits::is_crossed(*band))
}

// What an evaluation comes to before it is answered: the first number that applies, or done, and where that is done or
// 9 what was made of the record, with the figures that its price was chosen from; else zeros. The record is not written
// yet, since of a refusal and of why nothing is. A 9 has all the values of what is done, so this is no `Result`.
#[derive(Clone, Copy)]
pub struct Working {
    pub verdict: Verdict,
    pub made: Made,
    pub figures: PriceFigures,
}

// What a number before 9 leaves: nothing is made.
fn unmade(first: Verdict) -> Working
    ensures { result ≡ unmade_by first }
{
    let price = Price { units: 0 };
    let tentative = Tentative { bp: 0, age: 0 };
    let none = Limits { lower: 0, upper: 0 };
    let made = Made {
        p1: price,
        s: 0,
        tentative,
        rates: [Rate { bp: 0 }; Record::LEVELS],
        ranges: [none; Record::LEVELS],
        bands: [none; Record::TERMS],
    };
    Working {
        verdict: first,
        made,
        figures: PriceFigures {
            weight: 0,
            close: 0,
            bid: 0,
            ask: 0,
        },
    }
}

// 8, 9 and what is made of the record, at the evaluation of a day that is not refused before.
fn worked_at(s: Slot, d: Day, e: Priced) -> Working
    requires rec_value { sound s.rec ≡ true }
    requires d_value { valid_day_numbers d ≡ true }
    requires units_value { is_price e.price.units ≡ true }
    ensures { Prices s d e result }
{
    let r = s.rec;
    let st = r.statics;
    let rates = r.rates;
    let tentative = r.tentative;
    let p1 = r.p1;
    let p2 = r.p2;
    let p = e.price;
    let figures = e.figures;
    let price_move = rates::volatility::move_of(p1, p2, p);
    if rates::move_too_large(st, price_move) {
        return unmade(Verdict::MoveTooLarge);
    }
    let f = rates::figures_of(st, d.b, d.m, rates[0], price_move, r.s, tentative);
    let made = record_writing::figures::made_at(r, d, p, f);
    let bands = made.bands;
    if !in_order(bands) {
        return Working {
            verdict: Verdict::BandCrossed,
            made,
            figures,
        };
    }
    Working {
        verdict: Verdict::Done,
        made,
        figures,
    }
}

// "evaluate 1, 6, 5, 7, 8, 9" behind 1; W-205: "16, after 6 and before 5". One walk over the rows says what 6, 16 and 7
// ask of them (W-214).
fn worked_behind(s: Slot, d: Day, rows: &[i64]) -> Working
    requires { is_known s ≡ true }
    ensures { result ≡ worked_of s d rows.now }
{
    let r = s.rec;
    let standing = r.standing;
    let gathered = evaluation::gather(rows);
    if !valid_day(d, gathered) {
        return unmade(Verdict::OutOfRange);
    }
    if evaluation::is_crossed(gathered) {
        return unmade(Verdict::RowCrossed);
    }
    if d.day <= record_soundness::last_day(standing) {
        return unmade(Verdict::DayNotAfter);
    }
    let g = inputs::grid_of(r.statics.lot);
    let previous = r.p1;
    let used = used_by(r);
    let evaluation = evaluation::evaluate(gathered, previous, used, g);
    let Some(e) = evaluation else {
        return unmade(Verdict::PriceOutOfRange);
    };
    worked_at(s, d, e)
}

// The same with 1, which comes first.
pub fn worked(s: Slot, d: Day, rows: &[i64]) -> Working
    ensures { result ≡ worked_of s d rows.now }
{
    if !record_answers::is_known(s) {
        return unmade(Verdict::NoSuchId);
    }
    worked_behind(s, d, rows)
}

// The record that an evaluation makes is stored and answered, unless a number applies.
pub fn evaluated(s: Slot, d: Day, rows: &[i64]) -> Effect
    requires { is_known s ≡ true }
    ensures { result ≡ evaluate_effect s d rows.now }
{
    let count = s.count;
    let w = worked_behind(s, d, rows);
    let v = w.verdict;
    if !v.is_done() {
        return record_answers::refused(count, v);
    }
    let r = s.rec;
    let made = w.made;
    let rec = record_writing::figures::evaluated(r, d, made);
    record_answers::written(s.at, rec)
}
