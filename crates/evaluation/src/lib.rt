// The evaluation of a day from its rows (6.1), with the roundings (a) to (d). The previous evaluation and the day's are
// prices. The prices of the rows, and what is made of them before 7 has judged it, are bare numbers of units: 0 is
// missing there, and a figure may be beyond a price's range. That a row is in range is a clause and no ghost field: a
// `Row` is a type of the definitions, which make it of lent numbers.
#![tactic(auto)]

ghost use Rattle.std.specs.Prelude.{◌≡◌, true, false, ◌*◌, ◌≤◌, Err};
ghost use Rattle.paper.specs.Lists.{every};
ghost use Rattle.paper.specs.Numbers.{coarsest_grid, rouble, year_in_day_bp, price_most};
ghost use Rattle.paper.specs.Roundings.{half_up, to_grid, grown};
ghost use Rattle.paper_desk.specs.Evaluation.{row_price, roubles_of, lesser_ask, median, between, day_rows, row_fits};
ghost use Rattle.rows.specs.RowLaws.{InRange};
ghost use Rattle.evaluation.specs.Evaluation.{Discounts, Once, is_rouble_today, once_central_most, evaluation_from};
ghost use Rattle.evaluation.specs.Book.{Room, added, close_in, is_taken, Bound, Gathers, is_in_range, is_crossed};
ghost use Rattle.evaluation.specs.Book.{EvaluatesTo};

use inputs::is_price;
use paper::{External, Price, Roubles, Row, YEAR_IN_DAY_BP};

// The days of a year: 3,650,000/10^4 of place (a).
const YEAR_DAYS: u64 = YEAR_IN_DAY_BP / Row::ROUBLE;
// The greatest number of which 365 times fits 64 bits.
const NARROW_MOST: u64 = u64::MAX / YEAR_DAYS;

// The greatest central rate of a row whose prices are converted by one quotient each (W-214), as a round number: a
// price of 10^10 times 365 times it, with half of a year's days, fits 64 bits.
const ONCE_CENTRAL_MOST: u64 = 5_000_000;

// What the rows come to: their weights, their closes times their weights, the greatest bid and the least ask. Of no
// rows it is the default.
#[derive(Clone, Copy, Default)]
pub struct Book {
    weight: u64,
    worth: u64,
    bid: u64,
    ask: u64,
}

// The first of 6, 16 and 7 that refuses the rows.
#[derive(Clone, Copy, PartialEq, Eq)]
pub enum RowsRefused {
    OutOfRange,
    Crossed,
    Beyond,
}

// The figures that a price is chosen from: the weights of the rows together, the close, and BID and ASK with the
// outside prices that count (W-211), in units.
#[derive(Clone, Copy)]
pub struct PriceFigures {
    pub weight: u64,
    pub close: u64,
    pub bid: u64,
    pub ask: u64,
}

// An evaluation, and the figures that it was chosen from.
#[derive(Clone, Copy)]
pub struct Priced {
    pub price: Price,
    pub figures: PriceFigures,
}

// x·3,650,000/(10^4·days), rounded once: a price times its central rate, discounted. It is x·365/days, and nearly
// always that fits 64 bits.
fn discounted(x: u64, days: u64) -> u64
    requires { Discounts x days }
    ensures { result ≡ half_up (x * year_in_day_bp) (rouble * days) }
{
    if x <= NARROW_MOST {
        exact::half_up(x * YEAR_DAYS, days)
    } else {
        exact::half_up_wide(x, YEAR_IN_DAY_BP, Row::ROUBLE * days)
    }
}

// A year's days with the repo rate of the row's T of them: the divisor of place (a).
fn days_of(row: Row) -> u64
    requires { InRange row }
    ensures { result ≡ grown year_in_day_bp row.t row.repo }
{
    exact::grow(YEAR_IN_DAY_BP, row.t, row.repo)
}

// A price of a row in roubles today: place (a). A missing price, 0, stays missing.
fn row_price(row: Row, price: u64) -> u64
    requires in_range { InRange row }
    requires price_le_price_most { price ≤ price_most }
    ensures { result ≡ row_price row price }
{
    if price == 0 {
        return 0;
    }
    discounted(price * row.central, days_of(row))
}

// A row after places (a) and (b), the plain way: each figure as the paper has it, for every row in range.
fn plainly(row: Row) -> Roubles
    requires { InRange row }
    ensures { result ≡ roubles_of row }
{
    Roubles {
        weight: exact::half_up(row.volume * row.central, Row::ROUBLE),
        close: row_price(row, row.close),
        bid: row_price(row, row.bid),
        ask: row_price(row, row.ask),
    }
}

// Whether a row is in roubles today (W-214): half of real rows are.
fn is_rouble_today(row: Row) -> bool
    ensures { result ≡ is_rouble_today row }
{
    (row.central == Row::ROUBLE) & (row.t == 0)
}

// Such a row after places (a) and (b): its numbers stay as they are.
fn as_given(row: Row) -> Roubles
    requires { is_rouble_today row ≡ true }
    ensures { result ≡ roubles_of row }
{
    Roubles {
        weight: row.volume,
        close: row.close,
        bid: row.bid,
        ask: row.ask,
    }
}

// A price of a row by one quotient (W-214), where factor is 365 times the central rate. No price is tested for being
// there: half of the days is below the days, so that 0 stays 0.
fn once(price: u64, factor: u64, days: u64) -> u64
    requires { Once price factor days }
    ensures { result ≡ half_up (price * factor) days }
{
    exact::half_up_once(price * factor, days)
}

// A row after places (a) and (b), by one quotient a figure: one test of the central rate serves all of them.
fn by_one_quotient(row: Row) -> Roubles
    requires in_range { InRange row }
    requires central_le_once_central_most { row.central ≤ once_central_most }
    ensures { result ≡ roubles_of row }
{
    let factor = row.central * YEAR_DAYS;
    let days = days_of(row);
    Roubles {
        weight: exact::half_up_once(row.volume * row.central, Row::ROUBLE),
        close: once(row.close, factor, days),
        bid: once(row.bid, factor, days),
        ask: once(row.ask, factor, days),
    }
}

// A row after places (a) and (b), by the quickest way that its central rate and its day allow (W-214).
fn in_roubles(row: Row) -> Roubles
    requires { InRange row }
    ensures { result ≡ roubles_of row }
{
    if is_rouble_today(row) {
        return as_given(row);
    }
    if row.central <= ONCE_CENTRAL_MOST {
        return by_one_quotient(row);
    }
    // The row is handed on as a value of its own, so that the ways above need it in no memory.
    plainly(Row {
        t: row.t,
        central: row.central,
        repo: row.repo,
        close: row.close,
        bid: row.bid,
        ask: row.ask,
        volume: row.volume,
    })
}

// Whether no rounded figure of a row is refused 7. Those of a row in roubles today are in range already.
fn row_fits(row: Row, r: Roubles) -> bool
    requires in_range { InRange row }
    requires r_value { r ≡ roubles_of row }
    ensures { result ≡ row_fits row }
{
    if is_rouble_today(row) {
        return true;
    }
    ((row.close == 0) | is_price(r.close))
        & ((row.bid == 0) | is_price(r.bid))
        & ((row.ask == 0) | is_price(r.ask))
        & (r.weight <= Row::VOLUME_MOST)
}

// The same of a row as it was given: W-207 looks for the first that does not fit.
pub fn fits(row: Row) -> bool
    requires { InRange row }
    ensures { result ≡ row_fits row }
{
    let r = plainly(row);
    row_fits(row, r)
}

// The lesser of two asks, of which 0 is missing.
fn lesser_ask(a: u64, b: u64) -> u64
    ensures { result ≡ lesser_ask a b }
{
    if a == 0 {
        return b;
    }
    if b == 0 {
        return a;
    }
    a.min(b)
}

// The book with one row more. A row of weight 0 adds nothing to the close.
fn add(book: Book, r: Roubles) -> Book
    requires { Room book r }
    ensures { result ≡ added book r }
{
    Book {
        weight: book.weight + r.weight,
        worth: book.worth + r.weight * r.close,
        bid: book.bid.max(r.bid),
        ask: lesser_ask(book.ask, r.ask),
    }
}

// Whether neither 16 nor 7 refuses a row.
fn row_taken(row: Row, r: Roubles) -> bool
    requires in_range { InRange row }
    requires r_value { r ≡ roubles_of row }
    ensures { result ≡ is_taken row }
{
    !rows::are_crossed(row.bid, row.ask) & row_fits(row, r)
}

// What refuses rows of which one is not taken. It is rare, and rows behind that one may still be out of range or
// crossed, so all of them are judged, in the order of 6, 16 and 7.
fn refused(rows: &[i64]) -> RowsRefused
    requires { every is_taken (day_rows rows.now) ≡ false }
    ensures { Gathers rows.now (Err result) }
{
    if !rows::rows_valid(rows) {
        return RowsRefused::OutOfRange;
    }
    if rows::has_crossed_row(rows) {
        return RowsRefused::Crossed;
    }
    RowsRefused::Beyond
}

// The rows judged, converted and weighed in one walk (W-214).
pub fn gather(rows: &[i64]) -> Result<Book, RowsRefused>
    ensures { Gathers rows.now result }
{
    if !rows::whole_rows(rows) {
        return Err(RowsRefused::OutOfRange);
    }
    let mut book = Book::default();
    for numbers in rows.chunks_exact(Row::NUMBERS) {
        if !rows::row_valid(numbers, 0) {
            return Err(RowsRefused::OutOfRange);
        }
        let row = rows::row_at(numbers, 0);
        let r = in_roubles(row);
        if !row_taken(row, r) {
            return Err(refused(rows));
        }
        book = add(book, r);
    }
    Ok(book)
}

// Whether 6 does not refuse the rows.
pub fn in_range(gathered: Result<Book, RowsRefused>) -> bool
    ensures { result ≡ is_in_range gathered }
{
    !matches!(gathered, Err(RowsRefused::OutOfRange))
}

// Whether 16 refuses rows that 6 does not.
pub fn is_crossed(gathered: Result<Book, RowsRefused>) -> bool
    ensures { result ≡ is_crossed gathered }
{
    matches!(gathered, Err(RowsRefused::Crossed))
}

// The weighted close, place (c), or with no weight the previous evaluation.
fn close_of(book: Book, previous: Price) -> u64
    ensures { result ≡ close_in previous.units book }
{
    if book.weight == 0 {
        previous.units
    } else {
        exact::half_up(book.worth, book.weight)
    }
}

fn median(a: u64, b: u64, c: u64) -> u64
    ensures { result ≡ median a b c }
{
    a.min(b).max(a.max(b).min(c))
}

// The close between the sides that are present.
pub fn between(bid: u64, close: u64, ask: u64) -> u64
    ensures { result ≡ between bid close ask }
{
    if bid == 0 {
        if ask == 0 { close } else { close.min(ask) }
    } else {
        if ask == 0 {
            close.max(bid)
        } else {
            median(bid, close, ask)
        }
    }
}

// The evaluation on the grid, place (d), unless it is beyond its range: p is the price that the figures give.
fn on_grid(g: u64, p: u64, figures: PriceFigures) -> Option<Priced>
    requires { (1 ≤ g) × (g ≤ coarsest_grid) × (p ≤ price_most) }
    ensures { result ≡ evaluation_from (to_grid g p 1) figures }
{
    let price = Price::new(exact::to_grid(g, p, 1))?;
    Some(Priced { price, figures })
}

// The evaluation of rows as they were gathered, where neither 6 nor 16 refuses them; none where 7 does. `used` is the
// outside pair that counts (W-211): "BID is the greater of the book's and the outside one, ASK the lesser (6.1); a
// missing side leaves the book's."
pub fn evaluate(
    gathered: Result<Book, RowsRefused>,
    previous: Price,
    used: External,
    g: u64,
) -> Option<Priced>
    requires bound { Bound gathered }
    requires units_le_price_most { (previous.units ≤ price_most) × (1 ≤ g) × (g ≤ coarsest_grid) }
    requires bid_le_price_most { (used.bid ≤ price_most) × (used.ask ≤ price_most) }
    ensures { EvaluatesTo g previous.units used gathered result }
{
    let Ok(book) = gathered else {
        return None;
    };
    let close = close_of(book, previous);
    let bid = book.bid.max(used.bid);
    let ask = lesser_ask(book.ask, used.ask);
    let figures = PriceFigures {
        weight: book.weight,
        close,
        bid,
        ask,
    };
    on_grid(g, between(bid, close, ask), figures)
}
