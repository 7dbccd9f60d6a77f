// W-207, "the first row, else term, at fault, or none", of a refused evaluation: rows count from 1, terms are 0, 1, 2.
ghost use Rattle.std.specs.Prelude.{◌≡◌, true, [], ◌+◌, ◌%◌, ◌≤◌, length};
ghost use Rattle.std.specs.declared.option.Option.TheVariants.{None};
ghost use Rattle.paper.specs.Lists.{every};
ghost use Rattle.paper.specs.Numbers.{row_numbers};
ghost use Rattle.paper.specs.Ranges.{row_at, rows_of};
ghost use Rattle.paper.specs.Verdicts.{first_named};
ghost use Rattle.paper_reasons.specs.Faults.{out_of_range};
ghost use Rattle.record_reasons.specs.RowFaults.{at_fault, judgeable, row_fault, whole_fault, term_fault};
ghost use Rattle.record_reasons.specs.RowFaults.{fault_with, Refused};

use inputs::valid_term;
use limits::is_crossed;
use paper::{Day, Limits, Record, Row, Verdict};
use paper_reasons::Fault;

// What a row may be at fault in: a number of it is out of range (6), it is crossed (16), or a rounded price or volume
// of it does not fit (7).
#[derive(Clone, Copy)]
enum RowFault {
    OutOfRange,
    Crossed,
    Beyond,
}

fn row_at_fault(rows: &[i64], at: usize, which: RowFault) -> bool
    requires row_numbers_in_bounds { at + row_numbers ≤ length rows.now }
    requires at_value { judgeable which (row_at rows.now at) ≡ true }
    ensures { result ≡ at_fault which (row_at rows.now at) }
{
    match which {
        RowFault::OutOfRange => !rows::row_valid(rows, at),
        RowFault::Crossed => rows::row_crossed(rows, at),
        RowFault::Beyond => !evaluation::fits(rows::row_at(rows, at)),
    }
}

// The first row at fault, by one walk for the three faults.
fn first_row(rows: &[i64], which: RowFault) -> Option<Fault>
    requires row_numbers_len { length rows.now % row_numbers ≡ 0 }
    requires rows_value { every (judgeable which) (rows_of rows.now) ≡ true }
    ensures { result ≡ row_fault which (rows_of rows.now) }
{
    let mut at = 0;
    let mut number: u64 = 1;
    while at < rows.len() {
        if row_at_fault(rows, at, which) {
            return Some(Fault::Row(number));
        }
        at += Row::NUMBERS;
        number += 1;
    }
    None
}

// "the first row out of range where the length is a whole number of rows up to 16"
fn whole_row(rows: &[i64]) -> Option<Fault>
    ensures { result ≡ whole_fault rows.now }
{
    if !rows::whole_rows(rows) {
        return None;
    }
    first_row(rows, RowFault::OutOfRange)
}

// The first of the three terms at fault.
fn first_term(first: bool, second: bool, third: bool) -> Option<Fault>
    ensures { result ≡ term_fault first second third }
{
    if first {
        return Some(Fault::Term(0));
    }
    if second {
        return Some(Fault::Term(1));
    }
    if third {
        return Some(Fault::Term(2));
    }
    None
}

// 6
fn out_of_range(d: Day, rows: &[i64]) -> Option<Fault>
    ensures { result ≡ first_named None (out_of_range d rows.now) }
{
    let terms = d.terms;
    whole_row(rows).or(first_term(
        !valid_term(terms[0]),
        !valid_term(terms[1]),
        !valid_term(terms[2]),
    ))
}

// What is at fault in a refusal. Of a crossed band (9) the bands are those that were made.
pub fn fault_of(v: Verdict, d: Day, rows: &[i64], bands: [Limits; Record::TERMS]) -> Option<Fault>
    requires { Refused v rows.now }
    ensures { result ≡ fault_with v d rows.now bands }
{
    match v {
        Verdict::OutOfRange => out_of_range(d, rows),
        Verdict::RowCrossed => first_row(rows, RowFault::Crossed),
        Verdict::PriceOutOfRange => first_row(rows, RowFault::Beyond),
        Verdict::BandCrossed => first_term(
            is_crossed(bands[0]),
            is_crossed(bands[1]),
            is_crossed(bands[2]),
        ),
        _ => None,
    }
}
