// W-212: the writer and the reader of messages to members, on a lent buffer.
#![tactic(auto)]

pub mod kinds; // the fields of each kind, and whether a message is valid
mod widths; // a number, and the fields of a message, as bytes at their widths

ghost use Rattle.std.specs.Prelude.{◌≡◌};
ghost use Rattle.paper_messages.specs.Messages.{heard_at};
ghost use Rattle.messages.specs.Promises.{Writes, HearsAt, Whole};

use crate::kinds::{is_known_kind, is_valid, length_of, places_of};
use crate::widths::{get_fields, get_number, put_fields, put_number};
use paper::Verdict;
use paper_messages::{Heard, Message};

// ---- the writer

// "The writer gives 23, then 24, no room, exactly when the message is longer than the buffer, which is left untouched."
// It answers how many bytes it wrote.
pub fn write(buf: &mut [u8], m: Message) -> Result<usize, Verdict>
    ensures { Writes buf.old m result buf.new }
{
    if !is_valid(m) {
        return Err(Verdict::FieldOutOfRange);
    }
    let kind = m.kind;
    let length = length_of(kind);
    let whole = Message::LENGTH_WIDTH + (length as usize);
    if buf.len() < whole {
        return Err(Verdict::NoRoom);
    }
    put_number(buf, 0, Message::LENGTH_WIDTH, length);
    put_number(buf, Message::LENGTH_WIDTH, Message::KIND_WIDTH, kind);
    put_fields(buf, Message::HEAD, places_of(kind), m.fields);
    Ok(whole)
}

// ---- the reader

// A message that stands whole in the buffer: its kind, and what its fields say.
fn read_whole(buf: &[u8], at: usize, length: u64) -> Result<Heard, Verdict>
    requires { Whole buf.now at length }
    ensures { result ≡ heard_at buf.now at }
{
    let kind = get_number(buf, at + Message::LENGTH_WIDTH, Message::KIND_WIDTH);
    let next = at + (Message::LENGTH_WIDTH + (length as usize));
    if !is_known_kind(kind) {
        return Ok(Heard {
            kind,
            length,
            next,
            message: None,
        });
    }
    if length != length_of(kind) {
        return Err(Verdict::WrongLength);
    }
    let fields = get_fields(buf, at + Message::HEAD, places_of(kind));
    let message = Message { kind, fields };
    if !is_valid(message) {
        return Err(Verdict::FieldOutOfRange);
    }
    Ok(Heard {
        kind,
        length,
        next,
        message: Some(message),
    })
}

// What the reader hears at `at`. A place past the end has no bytes, so a message there is cut short.
pub fn read(buf: &[u8], at: usize) -> Result<Heard, Verdict>
    ensures { HearsAt buf.now at result }
{
    if buf.len() < Message::LENGTH_WIDTH {
        return Err(Verdict::CutShort);
    }
    if buf.len() - Message::LENGTH_WIDTH < at {
        return Err(Verdict::CutShort);
    }
    let length = get_number(buf, at, Message::LENGTH_WIDTH);
    if length < Message::LENGTH_LEAST {
        return Err(Verdict::WrongLength);
    }
    if Message::LENGTH_MOST < length {
        return Err(Verdict::WrongLength);
    }
    if buf.len() - at < Message::LENGTH_WIDTH + (length as usize) {
        return Err(Verdict::CutShort);
    }
    read_whole(buf, at, length)
}
