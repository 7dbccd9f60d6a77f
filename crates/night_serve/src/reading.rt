// The exchange's text, all its securities at once: one pass over the bytes, in which each line's row goes behind the
// rows of its security.
ghost use Rattle.std.specs.Prelude.{◌≡◌, ◌+◌, ◌*◌, ◌≤◌, ◌<◌, eqb, length, take, drop, get_or, position};
ghost use Rattle.paper.specs.Numbers.{row_numbers, all_numbers_most};
ghost use Rattle.night_protocol.specs.Night.{securities_most};
ghost use Rattle.night_protocol.specs.Sheet.{day_numbers, words_most};
ghost use Rattle.night_serve.specs.Tables.{ids_room, Finds, Enters, Reads, HeldSome};
ghost use Rattle.night_serve.specs.Serving.{JoinsOne, Joins};

use exchange_text::ROWS_MOST;
use exchange_text::row::{FIELDS, put_row, read_line};
use night_protocol::{ASKED_MOST, DAY_NUMBERS, SECURITIES_MOST, TEXT_MOST};
use paper::Row;

// The room for ids: those of a text, and behind them those that are asked for.
pub const IDS_ROOM: usize = SECURITIES_MOST + ASKED_MOST;

// The room for the numbers of rows.
pub const FIGURES_ROOM: usize = SECURITIES_MOST * Row::ALL_NUMBERS_MOST;

// The securities of a text: how many there are, their ids in the order in which they first occur, how many rows each
// has, and the rows' numbers, so many places for each security.
#[derive(Drop)]
pub struct Securities {
    pub count: usize,
    pub ids: [u64; IDS_ROOM],
    pub counts: [usize; SECURITIES_MOST],
    pub figures: [i64; FIGURES_ROOM],
}

// ---- ids

// The first place of an id.
fn place_of(ids: &[u64], id: u64) -> Option<usize>
    ensures { result ≡ position (λ x. eqb x id) ids.now }
{
    ids.iter().position(|x| *x == id)
}

// Where an id stands. The lines of a security mostly stand together, or the securities in the same order again, so that
// the search begins where the last one ended.
pub fn find(ids: &[u64], id: u64, last: usize) -> Option<usize>
    ensures { Finds ids.now id result }
{
    let start = last.min(ids.len());
    if let Some(i) = place_of(&ids[start..], id) {
        return Some(start + i);
    }
    place_of(&ids[..start], id)
}

impl Securities {
    // None yet.
    pub fn new() -> Securities
        ensures { result.count ≡ 0 }
    {
        Securities {
            count: 0,
            ids: [0; IDS_ROOM],
            counts: [0; SECURITIES_MOST],
            figures: [0; FIGURES_ROOM],
        }
    }

    // The numbers of the rows of the i-th security.
    pub fn rows(&self, i: usize) -> &[i64]
        requires { (HeldSome self.now) × (i < self.now.count) }
        ensures { result.now ≡ take (row_numbers * get_or self.now.counts i 0) (drop (all_numbers_most * i) self.now.figures) }
    {
        let from = Row::ALL_NUMBERS_MOST * i;
        &self.figures[from..from + Row::NUMBERS * self.counts[i]]
    }

    // ---- lines

    // The row of a line goes behind the rows of its security, which is a new one where the id is: where it is; or there
    // is no room for the row.
    fn enter(&mut self, line: &[i64; FIELDS], last: usize) -> Option<usize>
        requires { self.old.count ≤ securities_most }
        ensures { Enters self.old line.now self.new result }
    {
        let id = exact::unsigned_at(line, 0);
        let count = self.count;
        if let Some(at) = find(&self.ids[..count], id, last) {
            let rows = self.counts[at];
            if ROWS_MOST <= rows {
                return None;
            }
            put_row(&mut self.figures, ROWS_MOST * at + rows, line);
            self.counts[at] = rows + 1;
            return Some(at);
        }
        if SECURITIES_MOST <= count {
            return None;
        }
        put_row(&mut self.figures, ROWS_MOST * count, line);
        self.ids[count] = id;
        self.counts[count] = 1;
        self.count = count + 1;
        Some(count)
    }

    // ---- the ids that are asked for

    // One of them goes behind the first `all` ids, unless it is there; how many there are then.
    fn join_one(&mut self, all: usize, id: u64) -> usize
        requires { all < ids_room }
        ensures { JoinsOne self.old.ids all id self.new.ids result }
    {
        if find(&self.ids[..all], id, 0).is_some() {
            return all;
        }
        self.ids[all] = id;
        all + 1
    }

    // All of them go behind those of the text; how many there are then.
    pub fn join(&mut self, numbers: &[i64]) -> usize
        requires { (self.old.count ≤ securities_most) × (length numbers.now ≤ words_most) }
        ensures { Joins self.old.ids self.old.count (drop day_numbers numbers.now) self.new.ids result }
    {
        let mut all = self.count;
        for k in DAY_NUMBERS..numbers.len() {
            all = self.join_one(all, exact::unsigned_at(numbers, k));
        }
        all
    }
}

// ---- the text

// What the text says of all its securities; or the first bad line.
pub fn read_night(t: &[u8], securities: &mut Securities) -> Result<(), u64>
    ensures { Reads t.now securities.new result }
{
    if TEXT_MOST < t.len() {
        return Err(0);
    }
    securities.count = 0;
    let mut line = [0; FIELDS];
    let mut rest = t;
    let mut number: u64 = 1;
    let mut last = 0;
    while !rest.is_empty() {
        let Some(behind) = read_line(rest, &mut line) else {
            return Err(number);
        };
        let Some(at) = securities.enter(&line, last) else {
            return Err(number);
        };
        rest = behind;
        number += 1;
        last = at;
    }
    Ok(())
}
