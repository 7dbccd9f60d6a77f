// A turn of the evening on a lent table, and every turn: a line of standard input is heard, performed on the table and
// answered.
#![tactic(auto)]

ghost use Rattle.std.specs.Prelude.{◌≡◌, ◌+◌, ◌-◌, ◌≤◌, eqb, length, drop, replicate, get_or, set};
ghost use Rattle.paper_desk.specs.Desk.{blank};
ghost use Rattle.text_input.specs.Input.{Stands};
ghost use Rattle.text_ask.specs.WithReasons.{Asks};
ghost use Rattle.text_serve.specs.Places.{places_most, entry_of, note_of, Sound};
ghost use Rattle.text_serve.specs.Serve.{Turns, Serves, Closes};
ghost use Rattle.text_turn.specs.Tells.{waiting};
ghost use Rattle.text_bytes.specs.Bytes.{room};
ghost use Rattle.text_protocol.specs.Answers.{answer_most};
ghost use Rattle.text_protocol.specs.Names.{evaluate_count};
ghost use Rattle.paper.specs.Numbers.{slots_most};
ghost use Rattle.paper_messages.specs.Broadcast.{sent};
ghost use Rattle.paper_streams.specs.Streams.{begin_message};
ghost use Rattle.text_evidence.specs.Evidence.{unwritten, Hands};

use desk::{good_at, place_near};
use paper::Record;
use paper_messages::Message;
use std::io::{Stdin, Stdout};
use text_ask::{ask, id_asked};
use text_broadcast::{begin_message, end_message};
use text_bytes::ROOM;
use text_evening::Telling;
use text_evidence::Written;
use text_line::numbers::Numbers;
use text_out::Text;
use text_protocol::{Ask, Performed};
use text_turn::after::tell;
use text_turn::{State, prepare, rows_of, start};

// As many places are noted, an entry for the ids with one rest: a power of two above the slots.
pub const PLACES: usize = 1024;

// The same, for an id to be divided by.
const RESTS: u64 = 1024;

// The entry of an id.
fn entry_of(id: u64) -> usize
    ensures { result ≡ entry_of id }
{
    (id % RESTS) as usize
}

// What is noted of an id, or of another with its entry: 0, or one more than a place whose slot is good.
pub fn guess_in(places: &[usize; PLACES], id: u64) -> usize
    ensures { result ≡ get_or places.now (entry_of id) 0 }
{
    let k = entry_of(id);
    places[k]
}

// The place that is noted; the first slot where none is.
fn place_noted(noted: usize) -> usize
    ensures { result ≡ noted - 1 }
{
    noted.saturating_sub(1)
}

// Whether a place is the one that is noted.
fn is_noted(noted: usize, at: usize) -> bool
    ensures { result ≡ eqb noted (at + 1) }
{
    if noted == 0 {
        return false;
    }
    noted - 1 == at
}

// What there is to note of a place: nothing where its slot is not good.
fn note_of(at: usize, good: bool) -> usize
    ensures { result ≡ note_of at good }
{
    if good & (at < usize::MAX) {
        return at + 1;
    }
    0
}

// Notes it of an id.
pub fn note_in(places: &mut [usize; PLACES], id: u64, note: usize)
    ensures { places.new ≡ set places.old (entry_of id) note }
{
    let k = entry_of(id);
    places[k] = note;
}

// What a line asks for, asked of the desk: every program that performs lines does it here. The place of the security that
// the line asks about is guessed, and noted for the next line about it where its slot is good: that line finds it
// without a search, and its record is not tested once more. The numbers of the line have a lifetime of their own.
pub fn asked_in<'a, 'b>(
    t: &'a mut [Record],
    xs: &'b Numbers,
    places: &'a mut [usize; PLACES],
    a: Ask,
    asked: bool,
) -> Performed
    requires { Sound t.old places.old }
    ensures { (Asks asked a (drop evaluate_count xs.now) t.old result t.new)
        × Sound t.new places.new }
{
    let id = id_asked(a);
    let noted = guess_in(places, id);
    let guess = place_noted(noted);
    let at = place_near(t, guess, id);
    let known = is_noted(noted, at);
    let good = good_at(t, at, known);
    let note = note_of(at, good);
    note_in(places, id, note);
    ask(t, at, good, a, rows_of(xs), asked)
}

// One line: heard, asked of the desk, answered.
pub fn step<'a, 'b>(
    stdin: Stdin,
    stdout: Stdout,
    t: &'a mut [Record],
    buf: &'a mut [u8; ROOM],
    xs: &'b mut Numbers,
    out: &'a mut Text,
    places: &'a mut [usize; PLACES],
    s: State,
) -> State
    requires { (Stands buf.old s.input) × (length (waiting s out.old) + answer_most ≤ room) × Sound t.old places.old }
    ensures { (Turns buf.old s t.old out.old
        buf.new result t.new out.new) × Sound t.new places.new }
{
    let p = prepare(stdin, buf, xs, s);
    let a = asked_in(t, xs, places, p.ask, p.asked);
    tell(stdout, out, p, a)
}

// No place is noted.
pub fn no_places() -> [usize; PLACES]
    ensures { result ≡ replicate places_most 0 }
{
    [0; PLACES]
}

// Every line of standard input, told in one way. The state at the end has the evidence of what was read and written.
pub fn serve(stdin: Stdin, stdout: Stdout, t: &mut [Record], telling: Telling) -> State
    ensures { Serves telling t.old result t.new }
{
    let mut buf = text_evidence::large_buffer();
    let mut xs = Numbers::none();
    let mut out = Text::new();
    let mut places = no_places();
    let mut s = start(telling);
    while s.input.left > 0 {
        s = step(
            stdin,
            stdout,
            t,
            &mut buf,
            &mut xs,
            &mut out,
            &mut places,
            s,
        );
    }
    s
}

// "A fresh table has every slot empty."
pub fn fresh() -> [Record; Record::SLOTS_MOST]
    ensures { result ≡ replicate slots_most blank }
{
    let e = record_answers::blank();
    [e; Record::SLOTS_MOST]
}

// The line that was heard last, by the number of the next one.
pub fn last_heard(next: u64) -> u64 {
    next.saturating_sub(1).max(1)
}

// ---- what begins and ends a stream of messages

// One message is handed to standard output, behind what was handed over before.
fn send(stdout: Stdout, m: Message, before: Written) -> Written
    ensures { Hands (length (sent m)) before result }
{
    let mut out = Text::new();
    text_broadcast::send(&mut out, m);
    text_evidence::hand(stdout, out.as_slice(), out.length(), before)
}

// `begin`, before every other message.
fn begun(stdout: Stdout) -> Written
    ensures { Hands (length (sent begin_message)) unwritten result }
{
    send(stdout, begin_message(), text_evidence::unwritten())
}

// `end`, behind every other message, where messages are told, the input has ended and all of them were taken: it says
// how many they are, and their sum.
fn ended(stdout: Stdout, s: State) -> Written
    ensures { Closes s result }
{
    if !(s.told.took_all() & s.input.read.is_well()) {
        return s.told;
    }
    match s.telling {
        Telling::Answers => s.told,
        Telling::Reasons => s.told,
        Telling::Messages(_) => send(stdout, end_message(s.stream), s.told),
    }
}

// ---- what is said of a run

// Says on standard error that a read or a write failed, and at which line.
fn say_failed(rt: HostRuntime, telling: Telling, written: bool, line: u64) {
    let name = match telling {
        Telling::Answers => "evening",
        Telling::Reasons => "why",
        Telling::Messages(_) => "broadcast",
    };
    let failed = if written { "read" } else { "write" };
    let _ = eprintln!(rt; "{name}: could not {failed}, at line {line}");
}

// Ends the stream, and says which failed, a read or a write; or that the input has not ended. What came before a read
// that failed is the last line that was heard.
fn finish(rt: HostRuntime, s: State) {
    let told = ended(rt.stdout(), s);
    if told.took_all() & s.input.read.is_well() {
        return;
    }
    say_failed(rt, s.telling, told.took_all(), last_heard(s.number));
}

// A table by value, lent once to every line of standard input: `evening`, `why` and `broadcast` are this, told in three
// ways.
pub fn on(rt: HostRuntime, t: [Record; Record::SLOTS_MOST], telling: Telling) {
    let mut u = t;
    let s = serve(rt.stdin(), rt.stdout(), &mut u, telling);
    finish(rt, s);
}

// The same, told to members as one stream, with the messages of the line `from` and those behind it: `begin` is written
// before the first line is heard.
pub fn stream_on(rt: HostRuntime, t: [Record; Record::SLOTS_MOST], from: u64) {
    let told = begun(rt.stdout());
    if told.took_all() {
        on(rt, t, Telling::Messages(from));
    } else {
        say_failed(rt, Telling::Messages(from), false, 1);
    }
}
