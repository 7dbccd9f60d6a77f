// A field of the exchange's text, in front of a lent text: its number, and the text behind it. Nothing is copied: a
// field ends at the first byte that is none of its number's. Each function has one caller, or is short, so that the
// compiler makes one loop over the fields of them.
ghost use Rattle.std.specs.Prelude.{◌≡◌, false, ◌&&◌, ◌∷◌, ◌+◌, ◌*◌, ◌^◌, ◌≤◌, eqb, length, drop, IfSome, MatchOption};
ghost use Rattle.std.specs.List.{prefix_len};
ghost use Rattle.paper.specs.Lists.{pick};
ghost use Rattle.text_bytes.specs.Bytes.{minus_sign, digit_zero};
ghost use Rattle.text_bytes.specs.Numbers.{is_digit};
ghost use Rattle.exchange_protocol.specs.Scan.{starts, number_most, digits, past_zeros, behind_zeros, decimals};
ghost use Rattle.exchange_protocol.specs.Scan.{number, cell, pass};
ghost use Rattle.exchange_text.specs.Fronts.{front_of, passed_of};

use exchange_protocol::Column;
use paper::Price;

// No range of a row holds a greater number than a price's.
const NUMBER_MOST: u64 = Price::MOST_UNITS;

// Behind the byte b, if it stands in front.
#[tactic(auto, unfolding(exchange_protocol::specs::Scan::pass, exchange_protocol::specs::Scan::starts))]
pub fn pass(text: &[u8], b: u8) -> Option<&[u8]>
    ensures { passed_of result ≡ pass b text.now }
{
    let (first, rest) = text.split_first()?;
    if *first == b { Some(rest) } else { None }
}

// The digit in front, and the text behind it.
#[tactic(auto, unfolding(exchange_protocol::specs::Scan::starts, text_bytes::specs::Numbers::is_digit))]
fn first_digit(text: &[u8]) -> Option<(u64, &[u8])>
    ensures { MatchOption result (starts is_digit text.now ≡ false)
        (λ p. (text.now ≡ (digit_zero + p.0) ∷ p.1.now) × (p.0 ≤ 9)) }
{
    let (first, rest) = text.split_first()?;
    if first.is_ascii_digit() {
        Some((u64::from(*first - b'0'), rest))
    } else {
        None
    }
}

// At most so many digits, behind those of `whole`.
fn digits(text: &[u8], most: usize, whole: u64) -> Option<(u64, &[u8])>
    requires { whole ≤ number_most }
    ensures reads { front_of result ≡ digits most whole text.now }
    ensures small { IfSome result (λ p. p.0 ≤ number_most) }
    ensures few { IfSome result (λ p. (length p.1.now ≤ length text.now) × (length text.now ≤ length p.1.now + most)) }
{
    let mut n = whole;
    let mut rest = text;
    let mut left = most;
    while left != 0 {
        let Some((digit, behind)) = first_digit(rest) else {
            return Some((n, rest));
        };
        n = 10 * n + digit;
        if NUMBER_MOST < n {
            return None;
        }
        rest = behind;
        left -= 1;
    }
    Some((n, rest))
}

// How many zeros stand in front.
fn zeros(text: &[u8]) -> usize
    ensures are { result ≡ prefix_len (λ b. eqb b digit_zero) text.now }
    ensures few { result ≤ length text.now }
{
    text.iter().take_while(|b| **b == b'0').count()
}

// Behind the zeros.
fn past_zeros(text: &[u8]) -> &[u8]
    ensures { result.now ≡ past_zeros text.now }
{
    &text[zeros(text)..]
}

// The same, where the column may have zeros there.
fn behind_zeros(text: &[u8], column: Column) -> &[u8]
    ensures { result.now ≡ behind_zeros column text.now }
{
    if column.zeros { past_zeros(text) } else { text }
}

// The powers of ten that a unit may need.
const POWERS: [u64; 5] = [1, 10, 100, 1_000, 10_000];

fn ten_to(k: usize) -> u64
    requires { k ≤ 4 }
    ensures is { result ≡ 10 ^ k }
    ensures small { result ≤ 10000 }
{
    POWERS[k]
}

// What stands behind the point, where `whole` stands before it.
fn decimals(text: &[u8], column: Column, whole: u64) -> Option<(u64, &[u8])>
    requires { (whole ≤ number_most) × (column.places ≤ 4) }
    ensures reads { front_of result ≡ decimals column whole text.now }
    ensures small { IfSome result (λ p. p.0 ≤ 10000 * number_most) }
{
    let (number, rest) = digits(text, column.places, whole)?;
    let behind = behind_zeros(rest, column);
    if text.len() <= behind.len() {
        return None;
    }
    Some((
        number * ten_to(column.places - (text.len() - rest.len())),
        behind,
    ))
}

// A decimal of the column, in its unit, behind its first digit. Two places read one, so the compiler is told to write
// it into both.
#[inline(always)]
fn number(text: &[u8], column: Column, first: u64) -> Option<(u64, &[u8])>
    requires { (first ≤ 9) × (column.places ≤ 4) }
    ensures reads { front_of result ≡ number column ((digit_zero + first) ∷ text.now) }
    ensures small { IfSome result (λ p. p.0 ≤ 10000 * number_most) }
{
    let (whole, rest) = digits(text, text.len(), first)?;
    if let Some(behind) = pass(rest, b'.') {
        return decimals(behind, column, whole);
    }
    Some((whole * ten_to(column.places), rest))
}

// Behind a minus, where the column may have one and it stands there.
#[tactic(auto, unfolding(exchange_protocol::specs::Scan::pass))]
fn behind_minus(text: &[u8], column: Column) -> &[u8]
    ensures { result.now ≡ pick (column.minus && starts (λ x. eqb x minus_sign) text.now) (drop 1 text.now) text.now }
{
    if column.minus {
        pass(text, b'-').unwrap_or(text)
    } else {
        text
    }
}

// The field in front. A digit is looked for first, since nearly every field has one in front.
pub fn read_cell(text: &[u8], column: Column) -> Option<(i64, &[u8])>
    requires { column.places ≤ 4 }
    ensures { front_of result ≡ cell column text.now }
{
    if let Some((first, behind)) = first_digit(text) {
        let (number, rest) = number(behind, column, first)?;
        return Some((number as i64, rest));
    }
    let plain = behind_minus(text, column);
    if plain.len() < text.len() {
        let (first, behind) = first_digit(plain)?;
        let (number, rest) = number(behind, column, first)?;
        return Some((-(number as i64), rest));
    }
    if column.empty {
        return Some((0, text));
    }
    None
}
