// The day's rows (document 01, "Units and ranges"): seven signed numbers each, lent in one slice, checked and read.
#![tactic(auto)]

ghost use Rattle.std.specs.Prelude.{◌≡◌, true, ◌&&◌, ◌+◌, ◌%◌, ◌≤◌, ◌<◌, ltb, length, get_or, pos};
ghost use Rattle.paper.specs.Lists.{every};
ghost use Rattle.paper.specs.Numbers.{row_numbers};
ghost use Rattle.paper.specs.Ranges.{row_at, rows_of, whole_rows, close_for_volume, valid_row, valid_rows, row_of};
ghost use Rattle.paper_desk.specs.Evaluation.{day_rows, is_crossed_row, has_crossed_row};

use paper::{Price, Row, Term};

// The ends of ranges of which paper's code has the unsigned number: what is lent is signed.
const PRICE_MOST: i64 = Price::MOST_UNITS as i64;

const VOLUME_MOST: i64 = Row::VOLUME_MOST as i64;

// "A row: T 0..30; central rate 1..10^7 ten-thousandths; repo rate -9,999..9,999 bp; close, bid, ask 0..10^10; volume
// 0..10^8 thousands."
const ROW_LEAST: [i64; Row::NUMBERS] = [0, 1, Term::REPO_LEAST, 0, 0, 0, 0];

const ROW_MOST: [i64; Row::NUMBERS] = [
    Row::TERM_MOST,
    Row::CENTRAL_MOST,
    Term::REPO_MOST,
    PRICE_MOST,
    PRICE_MOST,
    PRICE_MOST,
    VOLUME_MOST,
];

// "Volume above 0 with close 0 is out of range": whether there is no volume at v, or a close at c.
fn close_for_volume(rows: &[i64], v: usize, c: usize) -> bool
    requires { (v < length rows.now) × (c < length rows.now) }
    ensures { result ≡ close_for_volume (get_or rows.now v (pos 0)) (get_or rows.now c (pos 0)) }
{
    let volume = rows[v];
    let close = rows[c];
    (volume <= 0) | (1 <= close)
}

// Whether each number of a row is in its range, and there is a close for a volume. The place stands beside the slice,
// since the exchange's text judges a row behind its id in one slice.
pub fn row_valid(rows: &[i64], at: usize) -> bool
    requires { at + row_numbers ≤ length rows.now }
    ensures { result ≡ valid_row (row_at rows.now at) }
{
    exact::all_within(rows, at, &ROW_LEAST, &ROW_MOST) & close_for_volume(rows, at + 6, at + 3)
}

// The row that begins at a place and is in range: no number of it but the repo rate is below zero, so each is read as
// it is (W-214).
pub fn row_at(rows: &[i64], at: usize) -> Row
    requires row_numbers_in_bounds { at + row_numbers ≤ length rows.now }
    requires at_value { valid_row (row_at rows.now at) ≡ true }
    ensures { result ≡ row_of (row_at rows.now at) }
{
    Row {
        t: exact::natural_at(rows, at),
        central: exact::natural_at(rows, at + 1),
        repo: rows[at + 2],
        close: exact::natural_at(rows, at + 3),
        bid: exact::natural_at(rows, at + 4),
        ask: exact::natural_at(rows, at + 5),
        volume: exact::natural_at(rows, at + 6),
    }
}

// W-205: "a row whose bid and ask are both present and the bid is above the ask". An evaluation asks it of a row that it
// has read, a refusal of the numbers as they are lent, so that the two numbers alone stand here.
pub fn are_crossed(bid: u64, ask: u64) -> bool
    ensures { result ≡ (ltb 0 bid && ltb 0 ask && ltb ask bid) }
{
    (0 < bid) & (0 < ask) & (ask < bid)
}

// The same of a row as it is lent.
pub fn row_crossed(rows: &[i64], at: usize) -> bool
    requires { at + row_numbers ≤ length rows.now }
    ensures { result ≡ is_crossed_row (row_of (row_at rows.now at)) }
{
    are_crossed(
        exact::unsigned_at(rows, at + 4),
        exact::unsigned_at(rows, at + 5),
    )
}

// "slice length not a multiple of 7 or over 112" is refused.
pub fn whole_rows(rows: &[i64]) -> bool
    ensures { result ≡ whole_rows rows.now }
{
    (rows.len() % Row::NUMBERS == 0) & (rows.len() <= Row::ALL_NUMBERS_MOST)
}

// Whether the numbers are 0 to 16 whole rows, each number in its range: else the day is refused 6.
pub fn rows_valid(rows: &[i64]) -> bool
    ensures { result ≡ valid_rows rows.now }
{
    whole_rows(rows) && rows.chunks_exact(Row::NUMBERS).all(|row| row_valid(row, 0))
}

// Whether some row is crossed: the day is then refused 16.
pub fn has_crossed_row(rows: &[i64]) -> bool
    requires { length rows.now % row_numbers ≡ 0 }
    ensures { result ≡ has_crossed_row (day_rows rows.now) }
{
    rows.chunks_exact(Row::NUMBERS)
        .any(|row| row_crossed(row, 0))
}
