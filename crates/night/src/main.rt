// From the exchange's evening text to an evaluation of each of its securities: the words are the numbers of the day and
// further ids, the text stands on standard input.
#![tactic(auto)]

ghost use Rattle.std.specs.Prelude.{◌≡◌, ◌≤◌, length};
ghost use Rattle.night_protocol.specs.Sheet.{day_numbers, words_most};
ghost use Rattle.night_serve.specs.Serving.{OfWord, Asks, Answered};

use night_protocol::{TEXT_MOST, WORDS_MOST};
use night_serve::reading::Securities;
use night_serve::{Served, Sheet, Taken};
use program_words::{WORD_ROOM, Word, report};
use text_out::Text;
use text_protocol::{Item, Pairs};

// ---- buffers

// A byte more than a text may have, so that a longer one is seen.
const TEXT_ROOM: usize = TEXT_MOST + 1;

fn text_buffer() -> [u8; TEXT_ROOM] {
    [0; TEXT_ROOM]
}

fn numbers_buffer() -> [i64; WORDS_MOST]
    ensures { length result ≡ words_most }
{
    [0; WORDS_MOST]
}

// ---- the words

fn say_usage(rt: HostRuntime) {
    let _ = rt.eprintln(
        "usage: night DAY B M K0 RRCL0 RRCH0 K1 RRCL1 RRCH1 K2 RRCL2 RRCH2 [ID...], with the exchange's text on standard input; a pair YM/YN may stand in place of RRCL RRCH",
    );
}

// The i-th word.
fn word_at(rt: HostRuntime, i: usize) -> Item
    ensures { OfWord result }
{
    let mut word: Word<WORD_ROOM> = Word::none();
    word.take(rt, i);
    text_word::item_of(word.as_slice())
}

// What the words ask for.
fn asked(rt: HostRuntime, numbers: &mut [i64]) -> Taken
    requires { length numbers.old ≡ words_most }
    ensures { Asks numbers.new result }
{
    let mut a = night_serve::no_words();
    let count = text_evidence::arg_count(rt);
    for i in 1..count {
        a = night_serve::take_word(numbers, a, word_at(rt, i));
    }
    night_serve::asked(a)
}

// ---- the sheet

// What standard input says of all its securities is handed to standard output.
fn serve(rt: HostRuntime, numbers: &[i64], pairs: Pairs) -> Served
    requires { (day_numbers ≤ length numbers.now) × (length numbers.now ≤ words_most) }
    ensures { Answered numbers.now pairs result }
{
    let mut text = text_buffer();
    let mut securities = Securities::new();
    let mut out = Text::new();
    let mut sheet = Sheet::new();
    night_serve::serve(
        rt.stdin(),
        rt.stdout(),
        &mut text,
        &mut securities,
        &mut out,
        &mut sheet,
        numbers,
        pairs,
    )
}

fn say_fault(rt: HostRuntime, line: u64) {
    let mut out = Text::new();
    night_serve::say_fault(&mut out, line);
    let _ = rt.stderr().write_all(out.as_slice());
}

// Says on standard error where the text is bad, and where a read or a write failed.
fn tell(rt: HostRuntime, served: Served) {
    if let Some(line) = served.fault {
        say_fault(rt, line);
    }
    report(rt, "night", served.read, served.told);
}

fn main(rt: HostRuntime) {
    let mut numbers = numbers_buffer();
    let a = asked(rt, &mut numbers);
    let count = a.count;
    let pairs = a.pairs;
    if a.ok {
        tell(rt, serve(rt, &numbers[..count], pairs));
    } else {
        say_usage(rt);
    }
}
