// The second half of a turn, after the table is asked: the answer is told. It waits with those before it until they are
// due, and all that wait are then handed to `write`, with its evidence. What was handed over stays in the text until
// the next answer is told: a contract speaks of what stands there at the return, and so of the bytes that were written.
ghost use Rattle.std.specs.Prelude.{◌≡◌, false, ◌+◌, ◌≤◌, ◌<◌, length};
ghost use Rattle.paper.specs.Lists.{pick};
ghost use Rattle.text_bytes.specs.Bytes.{room};
ghost use Rattle.text_protocol.specs.Answers.{answer_most};
ghost use Rattle.text_evening.specs.Evening.{number_after};
ghost use Rattle.text_evening.specs.Streamed.{stream_on};
ghost use Rattle.text_turn.specs.Tells.{halted, waiting, Tells};

use crate::{Prepared, State};
use paper_streams::Stream;
use std::io::Stdout;
use sums::sum_on;
use text_deed::{count, say};
use text_evening::Telling;
use text_evidence::hand;
use text_input::Input;
use text_out::Text;
use text_protocol::{Performed, WAITING_MOST};

// The number of the line behind the n-th.
#[tactic(auto, unfolding(text_evening::specs::Evening::number_after))]
pub fn number_after(n: u64) -> u64
    ensures { result ≡ number_after n }
{
    n.saturating_add(1)
}

// Where a write failed, no line more is heard.
pub fn stopped(i: Input, ok: bool) -> Input
    ensures { result ≡ pick ok i (halted i) }
{
    if ok {
        return i;
    }
    Input {
        at: i.at,
        end: i.end,
        len: i.len,
        left: 0,
        read: i.read,
    }
}

// Whether the answers, n bytes of them, are written now: no line is left to hear, the next line has to be waited for, or
// there is no room for one more answer.
pub fn is_due(i: Input, n: usize) -> bool
    ensures { result ≡ false → ((n + answer_most ≤ room) × (i.end < i.len) × (0 < i.left)) }
{
    if i.left == 0 {
        return true;
    }
    if i.end < i.len {
        return WAITING_MOST < n;
    }
    true
}

// How far the stream is told behind so many messages more, of these bytes.
#[tactic(auto, unfolding(text_evening::specs::Streamed::stream_on))]
fn carried(bytes: &[u8], telling: Telling, more: u64, stream: Stream) -> Stream
    ensures { result ≡ stream_on telling stream more bytes.now }
{
    match telling {
        Telling::Answers | Telling::Reasons => stream,
        Telling::Messages(_) => Stream {
            began: stream.began,
            count: stream.count.saturating_add(more),
            sum: sum_on(stream.sum, bytes),
        },
    }
}

// Tells the answer to a line: it is appended to those that wait, and they are written where they are due.
pub fn tell(stdout: Stdout, out: &mut Text, p: Prepared, a: Performed) -> State
    requires { length (waiting p.state out.old) + answer_most ≤ room }
    ensures { Tells out.old p a out.new result }
{
    let s = p.state;
    if !s.waits {
        out.clear();
    }
    let from = out.length();
    say(out, s.telling, p.ask, s.number, p.beside, a);
    let more = count(s.telling, p.ask, s.number, a.answer.verdict);
    let mut input = s.input;
    let mut told = s.told;
    let mut waits = true;
    let stream = carried(&out.as_slice()[from..], s.telling, more, s.stream);
    if is_due(input, out.length()) {
        told = hand(stdout, out.as_slice(), out.length(), told);
        input = stopped(input, told.took_all());
        waits = false;
    }
    State {
        input,
        number: number_after(s.number),
        kept: s.kept,
        waits,
        told,
        telling: s.telling,
        stream,
    }
}
