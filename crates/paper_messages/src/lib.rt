// What W-212 speaks of: a field, a message, and what the reader hears. specs/ defines what is
// right; proofs/ proves it. It may use `paper` and `paper_desk`.
#![tactic(auto)]

ghost use Rattle.std.specs.Prelude.{◌≡◌};
ghost use Rattle.paper_messages.specs.Messages.{answer_of};

use paper::{Statics, Verdict};

// A field of a message: how many bytes it has, and its range.
#[derive(Clone, Copy)]
pub struct Field {
    pub width: usize,
    pub low: i64,
    pub high: i64,
}

// A message: its kind, 1 to KINDS, and its fields in the order of docs/BROADCAST.md. Past the kind's last field stand
// zeros. The kind is a number and no enum: the writer refuses one that it doesn't know by 23 (`writes_are` of
// PinnedMessages), and the reader hears whatever two bytes give.
#[derive(Clone, Copy)]
pub struct Message {
    pub kind: u64,
    pub fields: [i64; Message::PLACES],
}

impl Message {
    // "Kinds: 1 statics, 2 rates and ranges, 3 bands, 4 move."; and of docs/BROADCAST.md 5 reasons, 6 begin, 7 end,
    // 8 session.
    pub const STATICS: u64 = 1;

    pub const RATES: u64 = 2;

    pub const BANDS: u64 = 3;

    pub const MOVE: u64 = 4;

    pub const REASONS: u64 = 5;

    pub const BEGIN: u64 = 6;

    pub const END: u64 = 7;

    pub const SESSION: u64 = 8;

    // The format's version, which `begin` says.
    pub const VERSION: i64 = 1;

    // How many kinds there are: their numbers are 1 to KINDS.
    pub const KINDS: usize = 8;

    // The most fields that a kind has: an id and the statics.
    pub const PLACES: usize = Statics::COUNT + 1;

    // "a four-byte length of what follows", "a two-byte kind"
    pub const LENGTH_WIDTH: usize = 4;

    pub const KIND_WIDTH: usize = 2;

    // The bytes before the first field.
    pub const HEAD: usize = Message::LENGTH_WIDTH + Message::KIND_WIDTH;

    // "its length, 2 to 4,096"
    pub const LENGTH_LEAST: u64 = 2;

    pub const LENGTH_MOST: u64 = 4_096;

    // The length of the messages of kind 1: of the kind and the fields, an id and other numbers of four bytes, and
    // flags of one. No kind's are longer.
    pub const STATICS_LENGTH: u64 = (Message::KIND_WIDTH
        + 4 * (Message::PLACES - Statics::FLAGS)
        + Statics::FLAGS) as u64;

    // The longest message of a known kind, whole: a buffer of so many bytes takes every message.
    pub const BYTES_MOST: usize = Message::LENGTH_WIDTH + Message::STATICS_LENGTH as usize;
}

// What the reader hears at a place: the kind, the length that the message gives, and the place behind it; and the message,
// where its kind is known. One of an unknown kind is skipped.
#[derive(Clone, Copy)]
pub struct Heard {
    pub kind: u64,
    pub length: u64,
    pub next: usize,
    pub message: Option<Message>,
}

// What is heard, in one record: a message of a known kind, or one of an unknown kind, which the reader skips; either
// with the kind, the length that the message gives, and the place behind it. A refusal has its verdict and zeros.
#[derive(Clone, Copy)]
pub struct ReaderAnswer {
    pub verdict: Verdict,
    pub known: bool,
    pub kind: u64,
    pub length: u64,
    pub next: usize,
    pub message: Message,
}

impl From<Result<Heard, Verdict>> for ReaderAnswer {
    ghost from_gives = { λ heard answer. answer ≡ answer_of heard };

    fn from(heard: Result<Heard, Verdict>) -> ReaderAnswer {
        let none = Message {
            kind: 0,
            fields: [0; Message::PLACES],
        };
        match heard {
            Ok(h) => ReaderAnswer {
                verdict: Verdict::Done,
                known: h.message.is_some(),
                kind: h.kind,
                length: h.length,
                next: h.next,
                message: h.message.unwrap_or(none),
            },
            Err(verdict) => ReaderAnswer {
                verdict,
                known: false,
                kind: 0,
                length: 0,
                next: 0,
                message: none,
            },
        }
    }
}
