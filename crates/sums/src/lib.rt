// CRC-32 (IEEE 802.3), the sum by which a feed and a journal are known to be whole. specs/ defines it, bit by bit;
// proofs/ proves that a table of what eight steps make of each byte gives the same. It uses nothing.
#![tactic(auto)]

mod steps; // what eight steps make of each byte

ghost use Rattle.std.specs.Prelude.{◌≡◌};
ghost use Rattle.sums.specs.Steps.{HoldSteps};
ghost use Rattle.sums.specs.Sums.{byte_bits, bits_of, after_bits, after_bytes, sum_on};

use crate::steps::{eight_steps, steps};

// What is left of the division after one byte more.
fn add_byte(table: &[u32; 256], remainder: u32, byte: u8) -> u32
    requires { HoldSteps table.now }
    ensures { result ≡ after_bits remainder (bits_of byte_bits byte) }
{
    (remainder >> 8) ^ eight_steps(table, ((remainder ^ (byte as u32)) & 255) as u8)
}

// What is left of the division after the bytes.
fn add_bytes(remainder: u32, bytes: &[u8]) -> u32
    ensures { result ≡ after_bytes remainder bytes.now }
{
    let table = steps();
    let mut left = remainder;
    for byte in bytes {
        left = add_byte(&table, left, *byte);
    }
    left
}

// The sum of a longer text, from the sum of its front and the bytes behind it. The sum of no byte is 0: so
// sum_on(0, text) is the sum of a text, and a text that comes in pieces is summed piece by piece.
pub fn sum_on(sum: u32, bytes: &[u8]) -> u32
    ensures { result ≡ sum_on sum bytes.now }
{
    !add_bytes(!sum, bytes)
}
