// The words of a line, lent: where they begin and end, and which number a word spells.
#![tactic(auto)]

ghost use Rattle.std.specs.Prelude.{◌≡◌, true, not, ◌&&◌, ◌==◌, ◌+◌, ◌≤◌, ◌<◌, ◌^◌, length, take, drop};
ghost use Rattle.std.specs.List.{fold, prefix_len};
ghost use Rattle.text_bytes.specs.Bytes.{is_blank, is_not, run, same};
ghost use Rattle.text_bytes.specs.Numbers.{size_from, up_to, above, below, number_of, greatest, least};
ghost use Rattle.text_protocol.specs.Line.{two_of, item_of};
ghost use Rattle.text_word.specs.Parts.{is_solid, is_part, Onward, Capped, Leads, WordAt};

use text_bytes::{DIGIT_NINE, DIGIT_ZERO};
use text_protocol::Item;

// The sizes of the greatest and of the least number of 64 bits with a sign.
const GREATEST_SIZE: u64 = 9_223_372_036_854_775_807;

const LEAST_SIZE: u64 = 9_223_372_036_854_775_808;

// The greatest number that takes one digit more and may still be within them.
const SIZE_BEFORE_ONE_MORE_DIGIT: u64 = 922_337_203_685_477_580;

// The greatest that takes any digit more and is within them.
const SIZE_BEFORE_ANY_DIGIT: u64 = 922_337_203_685_477_579;

// ---- where words begin and end

// A space, a tab and a carriage return part words.
#[tactic(auto, unfolding(text_bytes::specs::Bytes::is_blank))]
fn is_blank(b: u8) -> bool
    ensures { result ≡ is_blank b }
{
    matches!(b, b' ' | b'\t' | b'\r')
}

// How many bytes in front are blanks; and how many are none.
fn blanks(l: &[u8]) -> usize
    ensures { result ≡ prefix_len is_blank l.now }
{
    l.iter().take_while(|b| is_blank(**b)).count()
}

fn solids(l: &[u8]) -> usize
    ensures { result ≡ prefix_len (λ b. not (is_blank b)) l.now }
{
    l.iter().take_while(|b| !is_blank(**b)).count()
}

// How many bytes in front are another than b.
fn others(l: &[u8], b: u8) -> usize
    ensures { result ≡ prefix_len (λ x. not (x == b)) l.now }
{
    l.iter().take_while(|x| **x != b).count()
}

// The end of the blanks from `from` on.
pub fn past_blanks(l: &[u8], from: usize) -> usize
    requires { from ≤ length l.now }
    ensures { (result ≡ from + run is_blank (drop from l.now)) × (result ≤ length l.now) }
{
    from + blanks(&l[from..])
}

// The end of the word from `from` on.
pub fn past_word(l: &[u8], from: usize) -> usize
    requires { from ≤ length l.now }
    ensures { (result ≡ from + run is_solid (drop from l.now)) × (result ≤ length l.now) }
{
    from + solids(&l[from..])
}

// Whether no byte is b. Each is compared, as many at once as the compiler can: none has a branch of its own.
fn none_is(l: &[u8], b: u8) -> bool
    ensures { result ≡ fold (λ none x. none && not (x == b)) true l.now }
{
    l.iter().fold(true, |none, x| none & (*x != b))
}

// Past the next N bytes, where none of them is b.
fn past<const N: usize>(l: &[u8], i: usize, b: u8) -> usize
    requires { i ≤ length l.now }
    ensures { Onward (is_not b) l.now i result }
{
    if N <= l.len() - i && none_is(&l[i..i + N], b) {
        return i + N;
    }
    i
}

// Where the first byte b stands from `from` on, or the end: eight bytes, four, and then each.
fn find_near(l: &[u8], from: usize, b: u8) -> usize
    requires { from ≤ length l.now }
    ensures { (result ≡ from + run (is_not b) (drop from l.now)) × (result ≤ length l.now) }
{
    let start = past::<4>(l, past::<8>(l, from, b), b);
    start + others(&l[start..], b)
}

// Where the first byte b stands from `from` on, or the end. Most bytes of a line are passed sixteen at a time.
pub fn find(l: &[u8], from: usize, b: u8) -> usize
    requires { from ≤ length l.now }
    ensures { (result ≡ from + run (is_not b) (drop from l.now)) × (result ≤ length l.now) }
{
    let mut i = from;
    while 16 <= l.len() - i {
        if !none_is(&l[i..i + 16], b) {
            return find_near(l, i, b);
        }
        i += 16;
    }
    find_near(l, i, b)
}

// Whether two words are the same, byte by byte.
pub fn same_bytes(p: &[u8], w: &[u8]) -> bool
    ensures { result ≡ same p.now w.now }
{
    p == w
}

// Whether a word ends at a place: the text ends there, or a blank stands there.
fn ends_at(l: &[u8], at: usize) -> bool
    requires { at ≤ length l.now }
    ensures { result ≡ true → run is_solid (drop at l.now) ≡ 0 }
{
    if at < l.len() {
        return is_blank(l[at]);
    }
    true
}

// ---- numbers

// The size that the bytes from `from` on spell, unless it is above `most`.
fn number_from(p: &[u8], from: usize, most: u64) -> Option<u64>
    requires { (from ≤ length p.now) × (most < 2 ^ 63 + 1) }
    ensures { result ≡ up_to most (size_from 0 (drop from p.now)) }
{
    let mut i = from;
    let mut x: u64 = 0;
    while i < p.len() {
        let b = u64::from(p[i]);
        if b < DIGIT_ZERO {
            return None;
        }
        if DIGIT_NINE < b {
            return None;
        }
        if SIZE_BEFORE_ONE_MORE_DIGIT < x {
            return None;
        }
        let y = 10 * x + (b - DIGIT_ZERO);
        if most < y {
            return None;
        }
        x = y;
        i += 1;
    }
    Some(x)
}

// A size below zero.
fn below(n: Option<u64>) -> Option<i64>
    requires { Capped least n }
    ensures { result ≡ below n }
{
    match n {
        Some(x) => {
            if x == 0 {
                return Some(0);
            }
            let y = (x - 1) as i64;
            Some(-1 - y)
        }
        None => None,
    }
}

fn above(n: Option<u64>) -> Option<i64>
    requires { Capped greatest n }
    ensures { result ≡ above n }
{
    match n {
        Some(x) => Some(x as i64),
        None => None,
    }
}

// The number that a word spells: digits, behind a minus or none.
pub fn number_of(p: &[u8]) -> Option<i64>
    ensures { result ≡ number_of p.now }
{
    if p.len() == 0 {
        return None;
    }
    if p[0] == b'-' {
        if p.len() == 1 {
            return None;
        }
        return below(number_from(p, 1, LEAST_SIZE));
    }
    above(number_from(p, 0, GREATEST_SIZE))
}

// The two numbers of a pair Ym/Yn, whose slash stands at `at`.
fn pair_at(p: &[u8], at: usize) -> Item
    requires { at < length p.now }
    ensures { result ≡ two_of (number_of (take at p.now)) (number_of (drop (at + 1) p.now)) }
{
    let first = number_of(&p[..at]);
    let Some(m) = first else {
        return Item::Neither;
    };
    let from = at + 1;
    let second = number_of(&p[from..]);
    let Some(n) = second else {
        return Item::Neither;
    };
    Item::Two(m, n)
}

// What a word behind the call's is. A word that is a number has no slash, so the slash is looked for where it is none.
pub fn item_of(p: &[u8]) -> Item
    ensures { result ≡ item_of p.now }
{
    let whole = number_of(p);
    if let Some(z) = whole {
        return Item::One(z);
    }
    let at = find(p, 0, b'/');
    if at < p.len() {
        return pair_at(p, at);
    }
    Item::Neither
}

// ---- a word where it stands

// Digits in front of a word: where they end, and the size that they spell.
#[derive(Clone, Copy)]
pub struct Digits {
    pub end: usize,
    pub size: u64,
}

// The digits from `from` on, up to a size that takes one digit more, whichever it is, and stays within 64 bits with a
// sign.
fn digits_at(l: &[u8], from: usize) -> Digits
    requires { from ≤ length l.now }
    ensures { Leads l.now from result.end result.size }
{
    let mut i = from;
    let mut x: u64 = 0;
    while i < l.len() {
        let b = u64::from(l[i]);
        if b < DIGIT_ZERO {
            return Digits { end: i, size: x };
        }
        if b > DIGIT_NINE {
            return Digits { end: i, size: x };
        }
        if SIZE_BEFORE_ANY_DIGIT < x {
            return Digits { end: i, size: x };
        }
        x = 10 * x + (b - DIGIT_ZERO);
        i += 1;
    }
    Digits { end: i, size: x }
}

// A word of a line: where it ends, and what it is behind the call's.
#[derive(Clone, Copy)]
pub struct Word {
    pub end: usize,
    pub item: Item,
}

// The word from `from` on. Nearly every word is digits, so that its number is known where its end is found. Any other
// word is passed first, and then looked at.
pub fn word_at(l: &[u8], from: usize) -> Word
    requires { from ≤ length l.now }
    ensures { WordAt l.now from result }
{
    let d = digits_at(l, from);
    let end = d.end;
    let size = d.size;
    if from < end {
        if ends_at(l, end) {
            return Word {
                end,
                item: Item::One(size as i64),
            };
        }
    }
    let e = past_word(l, from);
    Word {
        end: e,
        item: item_of(&l[from..e]),
    }
}
