// docs/BROADCAST.md, "A whole stream": what is answered of a message in its stream, and how far the stream is heard
// behind it.
ghost use Rattle.std.specs.Prelude.{◌≡◌, ◌<◌};
ghost use Rattle.paper.specs.Numbers.{past_every};
ghost use Rattle.paper_messages.specs.Bytes.{complement};
ghost use Rattle.paper_messages.specs.Fields.{sum_width};
ghost use Rattle.paper_streams.specs.Streams.{no_stream, known_kind, count_said, sum_said, end_fits_of};
ghost use Rattle.paper_streams.specs.Streams.{number_in, stream_after};
ghost use Rattle.paper_streams.specs.Alone.{stands_alone};

use exact::{magnitude, unsigned};
use paper::Verdict;
use paper_messages::{Heard, Message, ReaderAnswer};
use paper_streams::Stream;
use sums::sum_on;

// ---- what an `end` says

// How many sums there are.
const SUMS: u64 = 4_294_967_296;

// The sum that a field of four bytes stands for.
fn sum_of(value: i64) -> u64
    ensures { result ≡ complement sum_width value }
{
    let size = magnitude(value);
    if value < 0 {
        return if size < SUMS { SUMS - 1 - size } else { 0 };
    }
    size
}

// How many messages stand before it.
pub fn count_said(m: Message) -> u64
    ensures { result ≡ count_said m }
{
    let fields = m.fields;
    unsigned(fields[0])
}

// The sum of their bytes.
pub fn sum_said(m: Message) -> u64
    ensures { result ≡ sum_said m }
{
    let fields = m.fields;
    sum_of(fields[1])
}

// ---- the stream

// Before every `begin` and behind every `end`.
pub fn no_stream() -> Stream
    ensures { result ≡ no_stream }
{
    Stream {
        began: false,
        count: 0,
        sum: 0,
    }
}

// Whether an `end` says what came of its stream.
fn end_fits(s: Stream, m: Message) -> bool
    ensures { result ≡ end_fits_of s m }
{
    s.began & (count_said(m) == s.count) & (sum_said(m) == (s.sum as u64))
}

// The number that is answered: 21, 22 and 23 as of every message, and then 25. It is 0 where none is, and no Option, as
// the definitions `number_in` and `line_of` have it.
pub fn number_in(s: Stream, h: ReaderAnswer) -> u64
    ensures { result ≡ number_in s h }
{
    let no = h.verdict.number();
    if no != 0 {
        return no;
    }
    if h.kind != Message::END {
        return 0;
    }
    if end_fits(s, h.message) {
        return 0;
    }
    Stream::NOT_WHOLE
}

// The kind of the message that is heard: 0, which is no kind, of a refusal and of an unknown kind.
pub fn known_kind(heard: Result<Heard, Verdict>) -> u64
    ensures { result ≡ known_kind heard }
{
    match heard {
        Ok(h) => h.message.map_or(0, |m| m.kind),
        Err(_) => 0,
    }
}

// How far the stream is heard behind a message of these bytes.
pub fn stream_after(s: Stream, h: ReaderAnswer, bytes: &[u8]) -> Stream
    requires { s.count < past_every }
    ensures { result ≡ stream_after s h bytes.now }
{
    match h.kind {
        Message::BEGIN => Stream {
            began: true,
            count: 1,
            sum: sum_on(0, bytes),
        },
        Message::END => no_stream(),
        _ if s.began => Stream {
            began: true,
            count: s.count + 1,
            sum: sum_on(s.sum, bytes),
        },
        _ => s,
    }
}

// Whether a message may stand at a place of an input that is one stream alone.
pub fn stands_alone(place: u64, s: Stream, h: ReaderAnswer) -> bool
    ensures { result ≡ stands_alone place s h }
{
    if h.kind == Message::BEGIN {
        !s.began & (place == 0)
    } else {
        s.began
    }
}
