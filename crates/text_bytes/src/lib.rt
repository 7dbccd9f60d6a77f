// What a text is made of, whoever writes it: bytes, the words and lines that they make, and the digits of a number.
// This crate has no function: it has what the definitions (specs/) and the code share, and knows no call.

#![tactic(auto)]

// The bytes of each buffer: of what is read, and of the answers that wait.
pub const ROOM: usize = 65_536;

// The digits, as bytes.
pub const DIGIT_ZERO: u64 = 48;

pub const DIGIT_NINE: u64 = 57;
