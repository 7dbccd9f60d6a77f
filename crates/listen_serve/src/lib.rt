// The program `listen` (document 02, W-212): messages on standard input, whatever pieces `read` delivers them in, and a
// line for each. Two buffers are lent to a step: one of what is read, one of the lines that wait to be written. An
// `end` is judged by the stream before it, of which a few numbers are kept (docs/BROADCAST.md, "A whole stream").
#![tactic(auto)]

ghost use Rattle.std.specs.Prelude.{◌≡◌, true, false, ◌+◌, ◌-◌, ◌≤◌, ◌<◌, length};
ghost use Rattle.text_bytes.specs.Bytes.{room};
ghost use Rattle.text_evidence.specs.Evidence.{count_most, has_ended, took_all};
ghost use Rattle.listen_serve.specs.Steps.{start_feed, feed_after, not_alone, start_listening, place_of, is_cut};
ghost use Rattle.listen_serve.specs.Steps.{Stands, Going, NextWithin, gathered, MakesRoom, TellsUnended, Tells};
ghost use Rattle.listen_serve.specs.Steps.{Hears, WritesOut, Delivers, ReadsOn, Finishes, Steps, Listens};
ghost use Rattle.listen_serve.specs.Steps.{went_well, whole_in};

use listen_lines::streams::{no_stream, number_in, stands_alone, stream_after};
use listen_lines::{LINE_MOST, say_heard, say_unended};
use paper::Verdict;
use paper_messages::{Message, ReaderAnswer};
use paper_streams::Stream;
use std::io::{Stdin, Stdout};
use text_bytes::ROOM;
use text_evidence::{Delivered, Written, fill, hand, shift, unread, unwritten};

// What is kept of the streams: how far the present one is heard, and whether every message so far may stand in an input
// that is one stream alone.
#[derive(Clone, Copy)]
pub struct Feed {
    pub stream: Stream,
    pub alone: bool,
}

// How far the input is listened to: the bytes of the buffer from `at` to `len` are delivered and not heard yet. So many
// bytes of lines wait to be written as `waiting` says. `over` is whether nothing more is heard. `feed` is what is kept
// of the streams, `read` the evidence of what was delivered, `told` of what was handed over.
#[derive(Clone, Copy)]
pub struct Listening {
    pub at: usize,
    pub len: usize,
    pub waiting: usize,
    pub over: bool,
    pub feed: Feed,
    pub read: Delivered,
    pub told: Written,
}

// At the start no stream began, and nothing stands that may not.
fn no_feed() -> Feed
    ensures { result ≡ start_feed }
{
    Feed {
        stream: no_stream(),
        alone: true,
    }
}

// At the start nothing is delivered, and nothing handed over.
pub fn start() -> Listening
    ensures { result ≡ start_listening }
{
    Listening {
        at: 0,
        len: 0,
        waiting: 0,
        over: false,
        feed: no_feed(),
        read: unread(),
        told: unwritten(),
    }
}

// ---- reading on

// Moves the bytes that are not heard yet to the front, and reads once behind them.
fn more(stdin: Stdin, buf: &mut [u8], s: Listening) -> Listening
    requires { (Stands buf.old s) × (s.len - s.at < room) × (s.read.all + room < count_most) }
    ensures { (Delivers buf.old s buf.new result) × (Stands buf.new result)
        × (result.waiting ≡ s.waiting) × (result.told ≡ s.told) }
{
    let have = shift(buf, s.at, s.len);
    let read = fill(stdin, buf, have, s.read);
    let end = have + read.came();
    Listening {
        at: 0,
        len: end,
        read,
        ..s
    }
}

// ---- lines

// Hands the lines that wait to `write`. Where it did not take all of them, nothing more is heard.
fn write_out(stdout: Stdout, out: &[u8], s: Listening, over: bool) -> Listening
    requires { s.waiting ≤ length out.now }
    ensures { WritesOut s over result }
{
    let n = s.waiting;
    let told = hand(stdout, out, n, s.told);
    Listening {
        waiting: 0,
        over: over | !told.took_all(),
        told,
        ..s
    }
}

// Where the bytes that are not heard yet begin in the input, from 0.
fn place_of(s: Listening) -> u64
    requires { (s.at ≤ s.len) × (s.len - s.at ≤ s.read.all) }
    ensures { result ≡ place_of s }
{
    let read = s.read;
    read.all() - ((s.len - s.at) as u64)
}

// The state with so many bytes of lines waiting, the place at `at`, and `feed` kept of the streams.
fn gathered(s: Listening, waiting: usize, at: usize, feed: Feed) -> Listening
    ensures { result ≡ gathered s waiting at feed }
{
    Listening {
        at,
        waiting,
        feed,
        ..s
    }
}

// The lines are written where the buffer has no room for one more.
fn make_room(stdout: Stdout, out: &[u8], s: Listening) -> Listening
    requires { (s.waiting ≤ length out.now) × (s.over ≡ false) × (took_all s.told ≡ true) }
    ensures { MakesRoom s result }
{
    if ROOM - LINE_MOST < s.waiting {
        return write_out(stdout, out, s, false);
    }
    s
}

// What is kept of the streams behind a message of these bytes at a place of the input.
fn feed_after(f: Feed, place: u64, h: ReaderAnswer, bytes: &[u8]) -> Feed
    requires { f.stream.count < count_most }
    ensures { result ≡ feed_after f place h bytes.now }
{
    let stream = f.stream;
    Feed {
        stream: stream_after(stream, h, bytes),
        alone: f.alone & stands_alone(place, stream, h),
    }
}

// The stream is not whole: the input is not one whole stream.
fn not_alone(stream: Stream) -> Feed
    ensures { result ≡ not_alone stream }
{
    Feed {
        stream,
        alone: false,
    }
}

// Gathers the line of a stream that has no end; it is left behind, and the place stays.
fn tell_unended(stdout: Stdout, out: &mut [u8; ROOM], s: Listening) -> Listening
    requires { Going s × (s.feed.stream.began ≡ true) }
    ensures { TellsUnended s out.old result out.new }
{
    let feed = s.feed;
    let stream = feed.stream;
    let n = say_unended(out, s.waiting, stream.count);
    let none = not_alone(no_stream());
    let r = gathered(s, n, s.at, none);
    make_room(stdout, out, r)
}

// Gathers the line of what is heard. The lines are written where nothing more is heard, and where the buffer has no
// room for one more.
fn tell(
    stdout: Stdout,
    buf: &[u8],
    out: &mut [u8; ROOM],
    s: Listening,
    h: ReaderAnswer,
) -> Listening
    requires { Going s × NextWithin buf.now s h }
    ensures { Tells buf.now s h out.old result out.new }
{
    let feed = s.feed;
    let stream = feed.stream;
    let place = place_of(s);
    let no = number_in(stream, h);
    let n = say_heard(out, s.waiting, place, no, h);
    let at = s.at;
    if no != 0 {
        let none = not_alone(stream);
        let r = gathered(s, n, at, none);
        return write_out(stdout, out, r, true);
    }
    let next = h.next;
    let after = feed_after(feed, place, h, &buf[at..next]);
    let r = gathered(s, n, next, after);
    make_room(stdout, out, r)
}

// What is heard: a `begin` within a stream says first that the stream has no end.
fn hear(
    stdout: Stdout,
    buf: &[u8],
    out: &mut [u8; ROOM],
    s: Listening,
    h: ReaderAnswer,
) -> Listening
    requires { Going s × NextWithin buf.now s h }
    ensures { Hears buf.now s h out.old result out.new }
{
    let feed = s.feed;
    let stream = feed.stream;
    if stream.began & (h.kind == Message::BEGIN) {
        return tell_unended(stdout, out, s);
    }
    tell(stdout, buf, out, s, h)
}

// ---- steps

// "21, message cut short": more bytes may make it whole.
fn is_cut(h: ReaderAnswer) -> bool
    ensures { result ≡ is_cut h }
{
    matches!(h.verdict, Verdict::CutShort)
}

// No byte more is counted: nothing more is heard, and that is not how an input ends.
fn used_up(s: Listening) -> Listening
    ensures { result ≡ record {
      at = s.at;
      len = s.len;
      waiting = s.waiting;
      over = true;
      feed = s.feed;
      read = s.read;
      told = s.told;
    } }
{
    Listening { over: true, ..s }
}

// Reads on, where a message is not whole yet. The lines that wait are written first, so that whoever listens sees them
// while the program waits. Nothing says that the input ends, so its bytes are counted, up to a number that no run comes
// near.
fn read_on(stdin: Stdin, stdout: Stdout, buf: &mut [u8], out: &[u8], s: Listening) -> Listening
    requires { (Stands buf.old s) × (s.over ≡ false) × (s.len - s.at < room) × (length out.now ≡ room) }
    ensures { ReadsOn buf.old s buf.new result }
{
    let w = write_out(stdout, out, s, false);
    if w.over {
        return w;
    }
    let read = w.read;
    if u64::MAX - read.all() <= (ROOM as u64) {
        return used_up(w);
    }
    more(stdin, buf, w)
}

// The input has ended between two messages: a stream that began has no end, and then nothing more is heard.
fn end_of_input(stdout: Stdout, out: &mut [u8; ROOM], s: Listening) -> Listening
    requires { Going s × (has_ended s.read ≡ true) × (s.at ≡ s.len) }
    ensures { Finishes s out.old result out.new }
{
    let feed = s.feed;
    let stream = feed.stream;
    if stream.began {
        return tell_unended(stdout, out, s);
    }
    write_out(stdout, out, s, true)
}

// One step: the message at the place is told, or more is read.
pub fn step(
    stdin: Stdin,
    stdout: Stdout,
    buf: &mut [u8],
    out: &mut [u8; ROOM],
    s: Listening,
) -> Listening
    requires { (Stands buf.old s) × (s.over ≡ false) }
    ensures { Steps buf.old s out.old buf.new result out.new }
{
    let at = s.at;
    let len = s.len;
    let heard = messages::read(&buf[..len], at);
    let h = ReaderAnswer::from(heard);
    if !is_cut(h) {
        return hear(stdout, buf, out, s, h);
    }
    let read = s.read;
    if !read.has_ended() {
        return read_on(stdin, stdout, buf, out, s);
    }
    if at == len {
        return end_of_input(stdout, out, s);
    }
    hear(stdout, buf, out, s, h)
}

// Every message of standard input. The state at the end has the evidence of what was read and written.
pub fn listen(stdin: Stdin, stdout: Stdout) -> Listening
    ensures { Listens result }
{
    let mut buf = text_evidence::large_buffer();
    let mut out = text_evidence::large_buffer();
    let mut s = start();
    while !s.over {
        s = step(stdin, stdout, &mut buf, &mut out, s);
    }
    s
}

// Whether no read failed, all that was handed over was taken, and no byte was left uncounted.
fn went_well(s: Listening) -> bool
    ensures { result ≡ went_well s }
{
    let read = s.read;
    let told = s.told;
    !read.has_failed() & told.took_all() & ((ROOM as u64) < u64::MAX - read.all())
}

// Whether what was delivered is one whole stream.
fn is_whole(s: Listening) -> bool
    ensures { result ≡ whole_in s }
{
    let feed = s.feed;
    let read = s.read;
    feed.alone & (0 < read.all())
}

// Says on standard error which failed.
fn say_failed(rt: HostRuntime, wrote: bool) {
    let failed = if wrote { "read" } else { "write" };
    let _ = eprintln!(rt; "listen: could not {failed}");
}

// The program: says on standard error where a read or a write failed and, if it is asked for one whole stream, where
// the input is none.
pub fn on(rt: HostRuntime, whole: bool) {
    let s = listen(rt.stdin(), rt.stdout());
    if !went_well(s) {
        let told = s.told;
        say_failed(rt, told.took_all());
        return;
    }
    if whole & !is_whole(s) {
        let _ = eprintln!(rt; "listen: not one whole stream");
    }
}
