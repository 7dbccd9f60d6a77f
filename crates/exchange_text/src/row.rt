// A line of the exchange's text, in front of a lent text: its eight numbers, in range, and the text behind it.
ghost use Rattle.std.specs.Prelude.{◌≡◌, [], ◌+◌, ◌*◌, ◌≤◌, ◌<◌, length, drop};
ghost use Rattle.std.proofs.lemmas.List.Edits.{sets};
ghost use Rattle.paper.specs.Numbers.{row_numbers};
ghost use Rattle.exchange_protocol.specs.Exchange.{columns, line_numbers};
ghost use Rattle.exchange_protocol.specs.Scan.{line_end, field_end, cells, in_range, line};
ghost use Rattle.exchange_text.specs.Fronts.{passed_of, front_with};

use crate::cell::{pass, read_cell};
use exchange_protocol::Column;
use paper::{Record, Row};

// The numbers of a line: the id, and those of a row.
pub const FIELDS: usize = 1 + Row::NUMBERS;

const ID_MOST: i64 = Record::ID_MOST as i64;

// ---- what stands between the fields

// "A line ends with LF, and CR LF is accepted."
#[tactic(auto, unfolding(exchange_protocol::specs::Scan::line_end, exchange_protocol::specs::Scan::pass))]
fn line_end(text: &[u8]) -> Option<&[u8]>
    ensures { passed_of result ≡ line_end text.now }
{
    let end = pass(text, b'\r').unwrap_or(text);
    pass(end, b'\n')
}

// Behind the k-th field.
fn field_end(text: &[u8], k: usize) -> Option<&[u8]>
    requires { k < line_numbers }
    ensures { passed_of result ≡ field_end (drop (k + 1) columns) text.now }
{
    if k + 1 < FIELDS {
        return pass(text, b';');
    }
    line_end(text)
}

// ---- the fields

const WHOLE_NUMBER: Column = Column {
    places: 0,
    zeros: false,
    empty: false,
    minus: false,
};

const EXCHANGE_RATE: Column = Column {
    places: 4,
    zeros: false,
    empty: false,
    minus: false,
};

const REPO_RATE: Column = Column {
    places: 2,
    zeros: false,
    empty: false,
    minus: true,
};

const PRICE: Column = Column {
    places: 4,
    zeros: true,
    empty: true,
    minus: false,
};

// How each field is written: the id, T, central rate, repo rate, close, bid, ask, volume.
const COLUMNS: [Column; FIELDS] = [
    WHOLE_NUMBER,
    WHOLE_NUMBER,
    EXCHANGE_RATE,
    REPO_RATE,
    PRICE,
    PRICE,
    PRICE,
    WHOLE_NUMBER,
];

// The eight fields, each with what stands behind it; their numbers go to `numbers`.
fn fields<'a>(text: &'a [u8], numbers: &mut [i64; FIELDS]) -> Option<&'a [u8]>
    ensures { front_with numbers.new result ≡ cells columns [] text.now }
{
    let mut rest = text;
    for (k, column) in COLUMNS.iter().enumerate() {
        let (number, behind) = read_cell(rest, *column)?;
        rest = field_end(behind, k)?;
        numbers[k] = number;
    }
    Some(rest)
}

// Document 01's ranges, of the eight numbers.
#[tactic(auto, unfolding(exchange_protocol::specs::Scan::in_range))]
fn in_range(numbers: &[i64]) -> bool
    requires { length numbers.now ≡ line_numbers }
    ensures { result ≡ in_range numbers.now }
{
    exact::within_at(numbers, 0, 1, ID_MOST) & rows::row_valid(numbers, 1)
}

// The line in front, with what ends it; its eight numbers go to `numbers`.
#[tactic(auto, unfolding(exchange_protocol::specs::Scan::line))]
pub fn read_line<'a>(text: &'a [u8], numbers: &mut [i64; FIELDS]) -> Option<&'a [u8]>
    ensures { front_with numbers.new result ≡ line text.now }
{
    let rest = fields(text, numbers)?;
    if in_range(numbers) {
        return Some(rest);
    }
    None
}

// The seven numbers of a line behind its id become the row `at`.
pub fn put_row(rows: &mut [i64], at: usize, line: &[i64; FIELDS])
    requires { row_numbers * at + row_numbers ≤ length rows.old }
    ensures { rows.new ≡ sets rows.old (row_numbers * at) (drop 1 line.now) }
{
    let first = Row::NUMBERS * at;
    rows[first..first + Row::NUMBERS].copy_from_slice(&line[1..]);
}
