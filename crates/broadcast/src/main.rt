// The evening again, told to members (document 02, W-212): an accepted admission, evaluation, move or opening is written
// as its messages, in bytes, between one that begins the stream and one that ends it, and nothing else is written. A
// fresh table of 512 slots, served with the lines of standard input. With the words `--from N` the lines before the N-th
// are performed and not told.
#![tactic(auto)]

use program_words::{WORD_ROOM, Word};
use text_protocol::Item;
use text_word::same_bytes;

// The room for the first word: more than `--from` has. A longer word is none that there is.
const OPTION_ROOM: usize = 16;

// The line whose messages are the first that are told, by its number from 1 on; none where the words say none.
fn first_told(rt: HostRuntime) -> Option<u64> {
    let count = text_evidence::arg_count(rt);
    if count <= 1 {
        return Some(1);
    }
    let mut option: Word<OPTION_ROOM> = Word::none();
    option.take(rt, 1);
    if count != 3 || !same_bytes(option.as_slice(), b"--from") {
        return None;
    }
    let mut number: Word<WORD_ROOM> = Word::none();
    number.take(rt, 2);
    match text_word::item_of(number.as_slice()) {
        Item::One(n) if 1 <= n => Some(exact::unsigned(n)),
        _ => None,
    }
}

fn main(rt: HostRuntime) {
    let Some(from) = first_told(rt) else {
        let _ = rt.eprintln(
            "usage: broadcast [--from N], with the lines of an evening on standard input; N counts from 1",
        );
        return;
    };
    text_serve::stream_on(rt, text_serve::fresh(), from);
}
