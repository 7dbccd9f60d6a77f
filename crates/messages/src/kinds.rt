// W-212: the fields of each kind of message, and whether a message is valid.
ghost use Rattle.std.specs.Prelude.{◌≡◌, ◌≤◌, length};
ghost use Rattle.paper.specs.Ranges.{within_z};
ghost use Rattle.paper_messages.specs.Fields.{fields_of, kind_word, places, places_of};
ghost use Rattle.paper_messages.specs.Messages.{length_of, is_known_kind, in_ranges, as_admission, valid};
ghost use Rattle.messages.specs.KindRows.{word_most};

use inputs::{given_of, number_at, valid_given, valid_id};
use paper::{Limit, Price, Rate, Record, Statics, Tentative, Term};
use paper_messages::{Field, Message};

// ---- fields

// "prices, limits and volatility eight bytes, ids, rates and other numbers four, yes/no one (0 or 1)"
const PRICE_WIDTH: usize = 8;

const NUMBER_WIDTH: usize = 4;

const YES_NO_WIDTH: usize = 1;

const NONE: Field = Field {
    width: 0,
    low: 0,
    high: 0,
};

const YES: i64 = 1;

const YES_NO: Field = Field {
    width: YES_NO_WIDTH,
    low: 0,
    high: YES,
};

const ID: Field = Field {
    width: NUMBER_WIDTH,
    low: 1,
    high: Record::ID_MOST as i64,
};

const DAY: Field = Field {
    width: NUMBER_WIDTH,
    low: 0,
    high: Record::DAY_MOST as i64,
};

const RATE: Field = Field {
    width: NUMBER_WIDTH,
    low: 0,
    high: Rate::MOST_BP as i64,
};

const WEIGHT: Field = Field {
    width: NUMBER_WIDTH,
    low: 0,
    high: Statics::WEIGHT_MOST as i64,
};

const DAYS: Field = Field {
    width: NUMBER_WIDTH,
    low: 1,
    high: Statics::DAYS_MOST as i64,
};

const SECONDS: Field = Field {
    width: NUMBER_WIDTH,
    low: 1,
    high: Statics::SECONDS_MOST as i64,
};

const LIMIT: Field = Field {
    width: PRICE_WIDTH,
    low: 0,
    high: Limit::MOST_UNITS as i64,
};

const TERM_DAYS: Field = Field {
    width: NUMBER_WIDTH,
    low: 0,
    high: Term::DAYS_MOST as i64,
};

const REPO: Field = Field {
    width: NUMBER_WIDTH,
    low: Term::REPO_LEAST,
    high: Term::REPO_MOST,
};

// A reason, of two, three or four: one byte, 0 for none.
const TWO_REASONS: Field = Field {
    width: YES_NO_WIDTH,
    low: 0,
    high: 2,
};

const THREE_REASONS: Field = Field {
    width: YES_NO_WIDTH,
    low: 0,
    high: 3,
};

const FOUR_REASONS: Field = Field {
    width: YES_NO_WIDTH,
    low: 0,
    high: 4,
};

// How many messages; and a sum, every number of four bytes, as two's complement has them.
const COUNT: Field = Field {
    width: PRICE_WIDTH,
    low: 0,
    high: i64::MAX,
};

const SUM: Field = Field {
    width: NUMBER_WIDTH,
    low: -2_147_483_648,
    high: 2_147_483_647,
};

// ---- kinds

// A kind's row: the length that its messages give, of the kind and the fields; its fields, in their order; and its word.
#[derive(Clone, Copy)]
struct MessageKind {
    length: u64,
    fields: &'static [Field],
    word: &'static [u8],
}

// Of an unknown kind we know that its length counts the kind.
const UNKNOWN: MessageKind = MessageKind {
    length: Message::LENGTH_LEAST,
    fields: &[],
    word: b"",
};

// ID LOT H Q A_UP A_DOWN WAIT RH1 RH2 RH3 LIQ MIN1 MIN2 MIN3 SMAX XPR SHIFT PCHMAX PCLMAX W U MONITORING ISEWMA
// UEVENING AUTOCHANGE EVENINGMAX USEEXTERNAL
const STATICS: MessageKind = MessageKind {
    length: Message::STATICS_LENGTH,
    fields: &[
        ID,
        Field {
            width: NUMBER_WIDTH,
            low: 1,
            high: Statics::LOT_MOST as i64,
        },
        Field {
            width: NUMBER_WIDTH,
            low: 1,
            high: Statics::STEP_MOST as i64,
        },
        Field {
            width: NUMBER_WIDTH,
            low: Statics::MULTIPLIER_LEAST as i64,
            high: Statics::MULTIPLIER_MOST as i64,
        },
        WEIGHT,
        WEIGHT,
        Field {
            width: NUMBER_WIDTH,
            low: 1,
            high: Statics::WAIT_MOST as i64,
        },
        Field {
            width: NUMBER_WIDTH,
            low: 1,
            high: Statics::FIRST_DAYS_MOST as i64,
        },
        DAYS,
        DAYS,
        Field {
            width: NUMBER_WIDTH,
            low: 0,
            high: Statics::LIQUIDITY_MOST as i64,
        },
        RATE,
        RATE,
        RATE,
        RATE,
        Field {
            width: NUMBER_WIDTH,
            low: Statics::DIVISOR_LEAST as i64,
            high: Statics::DIVISOR_MOST as i64,
        },
        Field {
            width: NUMBER_WIDTH,
            low: 1,
            high: Statics::SHIFT_MOST as i64,
        },
        RATE,
        RATE,
        Field {
            width: NUMBER_WIDTH,
            low: 0,
            high: Statics::NEARNESS_MOST as i64,
        },
        SECONDS,
        YES_NO,
        YES_NO,
        SECONDS,
        YES_NO,
        Field {
            width: NUMBER_WIDTH,
            low: 0,
            high: Statics::EVENING_MOVES_MOST as i64,
        },
        YES_NO,
    ],
    word: b"statics",
};

// ID DAY P S TENTATIVE AGE S1 S2 S3 UPPER1 UPPER2 UPPER3 LOWER1 LOWER2 LOWER3
const RATES: MessageKind = MessageKind {
    length: 94,
    fields: &[
        ID,
        DAY,
        Field {
            width: PRICE_WIDTH,
            low: Price::LEAST_UNITS as i64,
            high: Price::MOST_UNITS as i64,
        },
        Field {
            width: PRICE_WIDTH,
            low: 0,
            high: Record::VOLATILITY_MOST as i64,
        },
        Field {
            width: NUMBER_WIDTH,
            low: 0,
            high: (Tentative::MOST_BP + Statics::STEP_MOST - 1) as i64,
        },
        Field {
            width: NUMBER_WIDTH,
            low: 0,
            high: Record::AGE_MOST as i64,
        },
        RATE,
        RATE,
        RATE,
        LIMIT,
        LIMIT,
        LIMIT,
        LIMIT,
        LIMIT,
        LIMIT,
    ],
    word: b"rates",
};

// ID DAY, then for each of the three terms K RRCL RRCH LOWER UPPER
const BANDS: MessageKind = MessageKind {
    length: 94,
    fields: &[
        ID, DAY, TERM_DAYS, REPO, REPO, LIMIT, LIMIT, TERM_DAYS, REPO, REPO, LIMIT, LIMIT,
        TERM_DAYS, REPO, REPO, LIMIT, LIMIT,
    ],
    word: b"bands",
};

// ID SIDE COUNT, then the side's three range limits and its three band limits
const MOVE: MessageKind = MessageKind {
    length: 62,
    fields: &[
        ID,
        Field {
            width: NUMBER_WIDTH,
            low: 0,
            high: 1,
        },
        Field {
            width: NUMBER_WIDTH,
            low: 0,
            high: Record::MOVES_MOST as i64,
        },
        LIMIT,
        LIMIT,
        LIMIT,
        LIMIT,
        LIMIT,
        LIMIT,
    ],
    word: b"move",
};

// ID DAY PRICE WEIGHT REPLACEMENT TENTATIVE LEVEL1 LEVEL2 LEVEL3
const REASONS: MessageKind = MessageKind {
    length: 17,
    fields: &[
        ID,
        DAY,
        FOUR_REASONS,
        THREE_REASONS,
        TWO_REASONS,
        FOUR_REASONS,
        THREE_REASONS,
        THREE_REASONS,
        THREE_REASONS,
    ],
    word: b"reasons",
};

// VERSION
const BEGIN: MessageKind = MessageKind {
    length: 6,
    fields: &[Field {
        width: NUMBER_WIDTH,
        low: Message::VERSION,
        high: Message::VERSION,
    }],
    word: b"begin",
};

// COUNT SUM
const END: MessageKind = MessageKind {
    length: 14,
    fields: &[COUNT, SUM],
    word: b"end",
};

// ID DAY
const SESSION: MessageKind = MessageKind {
    length: 10,
    fields: &[ID, DAY],
    word: b"session",
};

// The row of a kind, as `kinds_table` has it.
fn kind_of(kind: u64) -> MessageKind
    ensures length { result.length ≡ length_of kind }
    ensures fields { result.fields.now ≡ fields_of kind }
    ensures word { result.word.now ≡ kind_word kind }
{
    match kind {
        Message::STATICS => STATICS,
        Message::RATES => RATES,
        Message::BANDS => BANDS,
        Message::MOVE => MOVE,
        Message::REASONS => REASONS,
        Message::BEGIN => BEGIN,
        Message::END => END,
        Message::SESSION => SESSION,
        _ => UNKNOWN,
    }
}

// The fields of a kind; past the last a place has no bytes and holds 0. They are filled up, as the definition `places_of`
// fills them: a message is valid only with zeros there.
pub fn places_of(kind: u64) -> [Field; Message::PLACES]
    ensures { result ≡ places_of kind }
{
    let fields = kind_of(kind).fields;
    let mut places = [NONE; Message::PLACES];
    places[..fields.len()].copy_from_slice(fields);
    places
}

// The length that a kind's messages give: of the kind and the fields.
pub fn length_of(kind: u64) -> u64
    ensures { result ≡ length_of kind }
{
    kind_of(kind).length
}

// How many fields a kind has.
pub fn field_count(kind: u64) -> usize
    ensures { (result ≡ length (fields_of kind)) × (result ≤ places) }
{
    kind_of(kind).fields.len()
}

// The word of a kind; an unknown kind has none.
pub fn word_of(kind: u64) -> &'static [u8]
    ensures word { result.now ≡ kind_word kind }
    ensures most { length result.now ≤ word_most }
{
    kind_of(kind).word
}

// ---- when a message is valid

pub fn is_known_kind(kind: u64) -> bool
    ensures { result ≡ is_known_kind kind }
{
    (1 <= kind) & (kind <= Message::KINDS as u64)
}

// Whether a value is in its field's range.
fn is_in(field: Field, value: i64) -> bool
    ensures { result ≡ within_z field.low field.high value }
{
    exact::is_within(field.low, field.high, value)
}

// Each value in its field's range.
fn in_ranges(places: [Field; Message::PLACES], values: [i64; Message::PLACES]) -> bool
    ensures { result ≡ in_ranges places values }
{
    for i in 0..Message::PLACES {
        if !is_in(places[i], values[i]) {
            return false;
        }
    }
    true
}

// Kind 1, an id and then the statics, is judged as an admission judges them.
fn as_admission(values: [i64; Message::PLACES]) -> bool
    ensures { result ≡ as_admission values }
{
    valid_id(number_at(&values, 0)) & valid_given(given_of(&values[1..]))
}

pub fn is_valid(m: Message) -> bool
    ensures { result ≡ valid m }
{
    let kind = m.kind;
    let values = m.fields;
    if !is_known_kind(kind) {
        return false;
    }
    if !in_ranges(places_of(kind), values) {
        return false;
    }
    if kind == Message::STATICS {
        return as_admission(values);
    }
    true
}
