// The program `exchange`: which security its argument asks for, the text that it takes in, and the line of its answer.
#![tactic(auto)]

ghost use Rattle.std.specs.Prelude.{◌≡◌, ◌++◌, ◌+◌, ◌*◌, ◌≤◌, length};
ghost use Rattle.exchange_protocol.specs.Scan.{reading};
ghost use Rattle.exchange_serve.specs.Rows.{past_ids, grown, asked_of, TakesIn, Serves, reading_text, reading_most};
ghost use Rattle.text_bytes.specs.Bytes.{room};
ghost use Rattle.paper.specs.Numbers.{all_numbers_most};
ghost use Rattle.exchange_protocol.specs.Exchange.{rows_most};

use exchange_protocol::Reading;
use exchange_text::{TEXT_MOST, read_exchange};
use paper::{Record, Row};
use std::io::{Stdin, Stdout};
use text_evidence::{Delivered, Written, fill, hand, unread, unwritten};
use text_out::Text;

// ---- the argument

// The first number past the ids: it stands for every number that is above the greatest id.
const PAST_IDS: u64 = Record::ID_MOST + 1;

// A number with a digit more; all that are above the greatest id are one.
fn grown(n: u64, d: u64) -> u64
    requires { (n ≤ past_ids) × (d ≤ 9) }
    ensures { (result ≡ grown n d) × (result ≤ past_ids) }
{
    (10 * n + d).min(PAST_IDS)
}

// Which security the program's argument asks for: one digit or more, and nothing else. No security has the id 0, so 0
// stands for every id that is out of range.
pub fn id_of(p: &[u8]) -> Option<u64>
    ensures { result ≡ asked_of p.now }
{
    if p.is_empty() {
        return None;
    }
    let mut n = 0;
    for b in p {
        if !b.is_ascii_digit() {
            return None;
        }
        n = grown(n, u64::from(*b - b'0'));
    }
    Some(if n <= Record::ID_MOST { n } else { 0 })
}

// ---- the text

// The room for a text: a byte more than one may have, so that a longer one is seen.
pub const TEXT_ROOM: usize = TEXT_MOST + 1;

// What was taken in: where it ends in the buffer, and what `read` did.
#[derive(Clone, Copy)]
pub struct Taken {
    pub end: usize,
    pub read: Delivered,
}

// Reads standard input until it ends, the buffer is full or a read fails. No index is counted: `len` grows by what each
// read brought.
pub fn take_in(stdin: Stdin, buf: &mut [u8]) -> Taken
    ensures { TakesIn buf.old buf.new result }
{
    let mut len = 0;
    let mut read = unread();
    while len < buf.len() {
        read = fill(stdin, buf, len, read);
        if read.has_ended() {
            return Taken { end: len, read };
        }
        len += read.came();
    }
    Taken { end: len, read }
}

// ---- the answer

// `0 COUNT` and the numbers of the rows; or `15 LINE`.
#[tactic(auto, using(text_out::specs::Appends::appending), unfolding(crate::specs::Rows::reading_text, crate::specs::Rows::reading_numbers, text_bytes::specs::Numbers::answer_text, paper::specs::Verdicts::is_done))]
fn say_reading(out: &mut Text, r: Reading)
    requires { (length out.old + reading_most ≤ room) × (r.count ≤ rows_most) × (length r.rows ≡ all_numbers_most) }
    ensures text { out.new ≡ out.old ++ reading_text r }
    ensures most { length out.new ≤ length out.old + reading_most }
{
    let verdict = r.verdict;
    let rows = r.rows;
    let no = verdict.number();
    out.put_number(no);
    if no == 0 {
        out.put_next(r.count as u64);
        out.put_numbers(&rows[..Row::NUMBERS * r.count]);
    } else {
        out.put_next(r.line);
    }
    out.put_byte(b'\n');
}

// What the program answers to a text, of the security that it is asked for.
pub fn answer(t: &[u8], id: u64, out: &mut Text)
    ensures text { out.new ≡ reading_text (reading id t.now) }
    ensures most { length out.new ≤ reading_most }
{
    out.clear();
    let r = read_exchange(t, id);
    say_reading(out, r);
}

// ---- the program

// What `read` and `write` did.
#[derive(Clone, Copy)]
pub struct Served {
    pub read: Delivered,
    pub told: Written,
}

// The text is taken in, and what it says of the security is handed over; nothing is where a read failed.
pub fn serve(stdin: Stdin, stdout: Stdout, text: &mut [u8], out: &mut Text, id: u64) -> Served
    ensures { Serves id text.old text.new out.new result }
{
    let taken = take_in(stdin, text);
    let end = taken.end;
    let read = taken.read;
    let told = unwritten();
    if read.has_failed() {
        return Served { read, told };
    }
    answer(&text[..end], id, out);
    let bytes = out.as_slice();
    let told = hand(stdout, bytes, bytes.len(), told);
    Served { read, told }
}
