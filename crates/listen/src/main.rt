// A member's end of the broadcast (document 02, W-212): messages on standard input, and a line for each on standard
// output. With the argument --whole it says on standard error where the input is not one whole stream.
#![tactic(auto)]

use program_words::Word;
use text_word::same_bytes;

// The room for a word: more than `--whole` has. A longer word is none that there is.
const WORD_ROOM: usize = 16;

// What the arguments ask for: the lines; the lines, and one whole stream; or nothing that there is. Its words say more
// than an Option of a flag would.
#[derive(Drop)]
enum Listens {
    Lines,
    Whole,
    Not,
}

fn asked(rt: HostRuntime) -> Listens {
    let count = text_evidence::arg_count(rt);
    if count < 2 {
        return Listens::Lines;
    }
    let mut word: Word<WORD_ROOM> = Word::none();
    word.take(rt, 1);
    if count == 2 && same_bytes(word.as_slice(), b"--whole") {
        return Listens::Whole;
    }
    Listens::Not
}

fn main(rt: HostRuntime) {
    let asked = asked(rt);
    match asked {
        Listens::Lines => listen_serve::on(rt, false),
        Listens::Whole => listen_serve::on(rt, true),
        Listens::Not => {
            let _ = rt.eprintln("usage: listen [--whole], with messages on standard input");
        }
    }
}
