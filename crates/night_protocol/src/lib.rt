// The program `night`: from the exchange's text to an evaluation of each of its securities (docs/EXCHANGE.md). What the
// definitions (specs/) and the code share. This crate has no function: the crates that read and print are proved equal
// to the definitions.
#![tactic(auto)]

use paper::Record;
use text_protocol::evaluate_place;

// The bytes of a text at most.
pub const TEXT_MOST: usize = 1_048_576;

// The securities of a text at most, as many as a table has slots.
pub const SECURITIES_MOST: usize = Record::SLOTS_MOST;

// The numbers of an evaluation that stand behind its id and before its rows: DAY B M, and K RRCL RRCH of each term.
pub const DAY_NUMBERS: usize = evaluate_place::COUNT - 1;

// The ids that may be asked for by words at most, as many as a table has slots.
pub const ASKED_MOST: usize = Record::SLOTS_MOST;

// The numbers of the words at most.
pub const WORDS_MOST: usize = DAY_NUMBERS + ASKED_MOST;
