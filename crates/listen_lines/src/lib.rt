// The line of what is heard (document 02, W-212), appended to a lent buffer, and what is answered of a message in its
// stream. Nothing here depends on how a message is read.
#![tactic(auto)]

pub mod streams; // an `end` that is judged, and how far a stream is heard

ghost use Rattle.std.specs.Prelude.{◌≡◌, [], ◌∷◌, ◌++◌, ◌+◌, ◌≤◌, pos, length};
ghost use Rattle.paper_messages.specs.Fields.{kind_word};
ghost use Rattle.text_bytes.specs.Bytes.{room};
ghost use Rattle.text_out.specs.Wrote.{Wrote};
ghost use Rattle.text_out.specs.Sizes.{word_bytes};
ghost use Rattle.listen_lines.specs.Lines.{unended_word, word_line, fields_in, numbers_in, line_of};
ghost use Rattle.listen_lines.specs.Lines.{line_most};

use crate::streams::{count_said, sum_said};
use messages::kinds::{field_count, word_of};
use paper::Row;
use paper_messages::{Message, ReaderAnswer};
use text_bytes::ROOM;
use text_out::{put_byte, put_bytes, put_next, put_numbers};

// The bytes of a word at most, and of a signed number with the blank before it.
const WORD_BYTES: usize = 11;

const NEXT_SIGNED_BYTES: usize = 22;

// No line is longer: a word, as many numbers as any line has, and the line feed.
pub const LINE_MOST: usize = WORD_BYTES + Row::ALL_NUMBERS_MOST * NEXT_SIGNED_BYTES + 1;

// The word of a kind.
fn put_kind(out: &mut [u8; ROOM], len: usize, kind: u64) -> usize
    requires { len + word_bytes ≤ room }
    ensures { Wrote out.old len out.new result (kind_word kind) word_bytes }
{
    put_bytes(out, len, word_of(kind))
}

// The word of a kind and the fields of a message.
fn say_fields(out: &mut [u8; ROOM], len: usize, m: Message) -> usize
    requires { len + line_most ≤ room }
    ensures { Wrote out.old len out.new result (word_line (kind_word m.kind) (fields_in m))
        line_most }
{
    let kind = m.kind;
    let fields = m.fields;
    let count = field_count(kind);
    let n = put_kind(out, len, kind);
    let n = put_numbers(out, n, &fields[..count]);
    put_byte(out, n, b'\n')
}

// A word and a number.
fn say_one(out: &mut [u8; ROOM], len: usize, word: &[u8], x: u64) -> usize
    requires { (len + line_most ≤ room) × (length word.now ≤ word_bytes) }
    ensures { Wrote out.old len out.new result (word_line word.now (pos x ∷ []))
        line_most }
{
    let n = put_bytes(out, len, word);
    let n = put_next(out, n, x);
    put_byte(out, n, b'\n')
}

// A word and two numbers.
fn say_two(out: &mut [u8; ROOM], len: usize, word: &[u8], x: u64, y: u64) -> usize
    requires { (len + line_most ≤ room) × (length word.now ≤ word_bytes) }
    ensures { Wrote out.old len out.new result (word_line word.now (pos x ∷ pos y
        ∷ [])) line_most }
{
    let n = put_bytes(out, len, word);
    let n = put_next(out, n, x);
    let n = put_next(out, n, y);
    put_byte(out, n, b'\n')
}

// A message of a known kind: its word and its numbers. The sum of an `end` is told without a sign.
fn say_message(out: &mut [u8; ROOM], len: usize, m: Message) -> usize
    requires { len + line_most ≤ room }
    ensures { Wrote out.old len out.new result (word_line (kind_word m.kind) (numbers_in m))
        line_most }
{
    if m.kind == Message::END {
        return say_two(out, len, b"end", count_said(m), sum_said(m));
    }
    say_fields(out, len, m)
}

// What is heard at a place of the input, and answered with `no`.
pub fn say_heard(out: &mut [u8; ROOM], len: usize, place: u64, no: u64, h: ReaderAnswer) -> usize
    requires { len + line_most ≤ room }
    ensures { Wrote out.old len out.new result (line_of place no h) line_most }
{
    if no != 0 {
        return say_two(out, len, b"refused", no, place);
    }
    if h.known {
        return say_message(out, len, h.message);
    }
    say_two(out, len, b"unknown", h.kind, h.length)
}

// A stream of so many messages that has no end.
pub fn say_unended(out: &mut [u8; ROOM], len: usize, count: u64) -> usize
    requires { len + line_most ≤ room }
    ensures { Wrote out.old len out.new result (word_line unended_word (pos count ∷ []))
        line_most }
{
    say_one(out, len, b"unended", count)
}
