// The exchange's evening text (document 02, W-203): what the definitions (specs/) and the code share. This crate has no
// function: the definitions say what a text means, and the crates that read one are proved equal to them.
#![tactic(auto)]

use paper::{Row, Verdict};

// How a column of the exchange's text is written: how many decimals its unit has, whether further ones may stand behind
// those if they are zeros, whether it may be empty, and whether it may have a minus.
#[derive(Clone, Copy)]
pub struct Column {
    pub places: usize,
    pub zeros: bool,
    pub empty: bool,
    pub minus: bool,
}

// What a text says of one security: done, how many rows it has, their numbers, seven to a row, and zeros past the last;
// or a bad line (15), its number, and zeros. A record and no Result: the theorems on `Says` (`says_unique`, `line_zero`,
// `none_outside`) speak of all its fields, zeros too.
#[derive(Clone, Copy)]
pub struct Reading {
    pub verdict: Verdict,
    pub line: u64,
    pub count: usize,
    pub rows: [i64; Row::ALL_NUMBERS_MOST],
}
