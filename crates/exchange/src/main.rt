// The rows of one security in the exchange's evening text: the id is the argument, the text stands on standard input.
#![tactic(auto)]

ghost use Rattle.std.specs.Prelude.{◌≡◌, ◌+◌, length};
ghost use Rattle.exchange_protocol.specs.Exchange.{text_most};
ghost use Rattle.exchange_serve.specs.Rows.{Asks, Answers};

use exchange_serve::{Served, TEXT_ROOM};
use program_words::{WORD_ROOM, Word, report};
use text_out::Text;

fn text_buffer() -> [u8; TEXT_ROOM]
    ensures { text_most + 1 ≡ length result }
{
    [0; TEXT_ROOM]
}

fn say_usage(rt: HostRuntime) {
    let _ = rt.eprintln("usage: exchange ID, with the exchange's text on standard input");
}

// Which security the only argument asks for.
fn asked(rt: HostRuntime) -> Option<u64>
    ensures { Asks result }
{
    if text_evidence::arg_count(rt) != 2 {
        return None;
    }
    let mut word: Word<WORD_ROOM> = Word::none();
    word.take(rt, 1);
    exchange_serve::id_of(word.as_slice())
}

// What standard input says of a security is handed to standard output.
fn serve(rt: HostRuntime, id: u64) -> Served
    ensures { Answers id result }
{
    let mut text = text_buffer();
    let mut out = Text::new();
    exchange_serve::serve(rt.stdin(), rt.stdout(), &mut text, &mut out, id)
}

fn main(rt: HostRuntime) {
    match asked(rt) {
        Some(id) => {
            let served = serve(rt, id);
            report(rt, "exchange", served.read, served.told);
        }
        None => say_usage(rt),
    }
}
