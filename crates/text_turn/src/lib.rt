// The first half of a turn, before the table is asked: the next line is heard. The state that goes on from turn to turn
// stands here too, and what the second half (`after`) is handed. Neither half sees the table.
#![tactic(auto)]

pub mod after; // the second half, after the table is asked

ghost use Rattle.std.specs.Prelude.{◌≡◌, drop};
ghost use Rattle.text_input.specs.Input.{Stands};
ghost use Rattle.text_turn.specs.Turn.{Prepares, start_state};
ghost use Rattle.text_protocol.specs.Names.{evaluate_count};

use paper_streams::Stream;
use std::io::Stdin;
use text_call::figures;
use text_deed::{Beside, asks_why, deed_of};
use text_evening::Telling;
use text_evidence::Written;
use text_input::{Input, hear};
use text_line::numbers::Numbers;
use text_protocol::{Ask, Kept, evaluate_place};

// What goes on from line to line: what is left of the input, the number of the next line, what is kept of the interest
// lines, whether the answers that are gathered wait to be written or were handed to `write`, the evidence of what was,
// how lines are told, and how far the stream of messages is told.
#[derive(Clone, Copy)]
pub struct State {
    pub input: Input,
    pub number: u64,
    pub kept: Kept,
    pub waits: bool,
    pub told: Written,
    pub telling: Telling,
    pub stream: Stream,
}

// A line that was heard: the state behind it, but for the number of the line, which goes on once it is told; what it
// asks for, what is answered to it beside the table, whether why is asked, and where the line's bytes stand in the
// buffer. Its numbers are lent beside it.
#[derive(Clone, Copy)]
pub struct Prepared {
    pub state: State,
    pub ask: Ask,
    pub beside: Beside,
    pub asked: bool,
    pub from: usize,
    pub to: usize,
}

// Hears the next line.
pub fn prepare(stdin: Stdin, buf: &mut [u8], xs: &mut Numbers, s: State) -> Prepared
    requires { Stands buf.old s.input }
    ensures { Prepares buf.old s buf.new result xs.new }
{
    let h = hear(stdin, buf, xs, s.input);
    let deed = deed_of(xs.as_slice(), h.line, s.kept);
    Prepared {
        state: State {
            input: h.input,
            kept: deed.kept,
            ..s
        },
        ask: deed.ask,
        beside: deed.beside,
        asked: asks_why(s.telling),
        from: h.from,
        to: h.to,
    }
}

// The row figures of a line.
pub fn rows_of(xs: &Numbers) -> &[i64]
    ensures { result.now ≡ drop evaluate_count xs.now }
{
    figures(xs.as_slice(), evaluate_place::COUNT)
}

// The sum of `begin`.
const BEGUN: u32 = 0x8071_9c49;

// At the start nothing is read and nothing waits, and of a stream `begin` is told. Nothing says that the input ends, so
// the lines are counted down from a number that no run uses up.
pub fn start(telling: Telling) -> State
    ensures { result ≡ start_state telling }
{
    State {
        input: Input {
            at: 0,
            end: 0,
            len: 0,
            left: u64::MAX,
            read: text_evidence::unread(),
        },
        number: 1,
        kept: text_call::kept::none(),
        waits: false,
        told: text_evidence::unwritten(),
        telling,
        stream: Stream {
            began: true,
            count: 1,
            sum: BEGUN,
        },
    }
}
