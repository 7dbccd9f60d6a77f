// The exchange's evening text: the rows of one security in a lent text. One pass over the bytes; the rows stay where
// they are while it goes on.
#![tactic(auto)]

mod cell; // a field
pub mod row; // a line

ghost use Rattle.std.specs.Prelude.{◌≡◌, length};
ghost use Rattle.exchange_protocol.specs.Exchange.{refused, Says};

use crate::row::{FIELDS, put_row, read_line};
use exchange_protocol::Reading;
use paper::{Row, Verdict};

// "a lent buffer of at most 65,536 bytes"
pub const TEXT_MOST: usize = 65_536;

// "16 rows"
pub const ROWS_MOST: usize = Row::ALL_NUMBERS_MOST / Row::NUMBERS;

// "15, bad line, with its line number"
#[tactic(auto, unfolding(exchange_protocol::specs::Exchange::refused))]
fn refused(line: u64) -> Reading
    ensures { result ≡ refused line }
{
    Reading {
        verdict: Verdict::BadLine,
        line,
        count: 0,
        rows: [0; Row::ALL_NUMBERS_MOST],
    }
}

// What the text says of the security.
pub fn read_exchange(t: &[u8], id: u64) -> Reading
    ensures { Says id t.now result }
{
    if TEXT_MOST < t.len() {
        return refused(0);
    }
    let mut rows = [0; Row::ALL_NUMBERS_MOST];
    let mut line = [0; FIELDS];
    let mut rest = t;
    let mut number = 1;
    let mut count = 0;
    while !rest.is_empty() {
        let Some(behind) = read_line(rest, &mut line) else {
            return refused(number);
        };
        if exact::unsigned_at(&line, 0) == id {
            if ROWS_MOST <= count {
                return refused(number);
            }
            put_row(&mut rows, count, &line);
            count += 1;
        }
        rest = behind;
        number += 1;
    }
    Reading {
        verdict: Verdict::Done,
        line: 0,
        count,
        rows,
    }
}
