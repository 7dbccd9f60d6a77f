// Text that is gathered before it is written: a byte is appended, a number, a signed number; the bytes of a word, and
// numbers with a blank before each. Nothing is copied: each function stores its bytes in place, behind those before.
#![tactic(auto)]

ghost use Rattle.std.specs.Prelude.{◌≡◌, [], ◌∷◌, ◌++◌, ◌+◌, ◌-◌, ◌≤◌, ◌<◌, ◌*◌, ◌^◌, pos, length};
ghost use Rattle.paper.specs.Numbers.{all_numbers_most};
ghost use Rattle.text_bytes.specs.Numbers.{decimal, signed, spaced};
ghost use Rattle.text_out.specs.Places.{Places, number_bytes, signed_bytes, next_bytes, next_signed_bytes};
ghost use Rattle.text_out.specs.Sizes.{word_bytes, rows_bytes};
ghost use Rattle.text_out.specs.Told.{Told};
ghost use Rattle.text_out.specs.Wrote.{Wrote};
ghost use Rattle.text_bytes.specs.Bytes.{room};

use exact::magnitude;
use std::marker::Model;
use text_bytes::{DIGIT_ZERO, ROOM};

// Text that is gathered before it is written: at most ROOM bytes.
#[derive(Drop)]
pub struct Text {
    bytes: [u8; ROOM],
    length: usize,
}

impl Model for Text {
    ghost use Rattle.std.specs.Prelude.{ℕ, List, ◌≤◌, take};
    ghost use Rattle.text_bytes.specs.Bytes.{room};

    ghost Value = { List ℕ };

    ghost view = { λ t. take t.length t.bytes };

    ghost invariant = { λ t. t.length ≤ room };
}

impl Text {
    pub fn new() -> Text
        ensures { result ≡ [] }
    {
        Text {
            bytes: [0; ROOM],
            length: 0,
        }
    }

    pub fn as_slice(&self) -> &[u8]
        ensures bytes { result.now ≡ self.now }
        ensures most { length self.now ≤ room }
    {
        &self.bytes[..self.length]
    }

    // How many bytes are gathered.
    pub fn length(&self) -> usize
        ensures length { result ≡ length self.now }
        ensures most { length self.now ≤ room }
    {
        self.as_slice().len()
    }

    pub fn clear(&mut self)
        ensures { self.new ≡ [] }
    {
        self.length = 0;
    }

    // One byte.
    pub fn put_byte(&mut self, b: u8)
        requires { length self.old + 1 ≤ room }
        ensures text { self.new ≡ self.old ++ b ∷ [] }
        ensures most { length self.new ≤ length self.old + 1 }
    {
        self.bytes[self.length] = b;
        self.length += 1;
    }

    // The decimal digits of x, the most significant first.
    pub fn put_number(&mut self, x: u64)
        requires { length self.old + number_bytes ≤ room }
        ensures text { self.new ≡ self.old ++ decimal x }
        ensures most { length self.new ≤ length self.old + number_bytes }
    {
        let end = self.length + places(x);
        let mut rest = x;
        for i in (self.length..end).rev() {
            self.bytes[i] = (DIGIT_ZERO + rest % 10) as u8;
            rest /= 10;
        }
        self.length = end;
    }

    // A minus where x is below 0, and its size in decimal.
    #[tactic(auto, using(crate::specs::Appends::appending, crate::proofs::Sign::signs))]
    pub fn put_signed(&mut self, x: i64)
        requires { length self.old + signed_bytes ≤ room }
        ensures text { self.new ≡ self.old ++ signed x }
        ensures most { length self.new ≤ length self.old + signed_bytes }
    {
        if x < 0 {
            self.put_byte(b'-');
        }
        self.put_number(x.unsigned_abs());
    }

    // The bytes of a word.
    pub fn put_bytes(&mut self, word: &[u8])
        requires { length self.old + length word.now ≤ room }
        ensures text { self.new ≡ self.old ++ word.now }
        ensures most { length self.new ≤ length self.old + length word.now }
    {
        let end = self.length + word.len();
        self.bytes[self.length..end].copy_from_slice(word);
        self.length = end;
    }

    // A blank, and a number.
    #[tactic(auto, using(crate::specs::Appends::appending), unfolding(text_bytes::specs::Numbers::next, text_bytes::specs::Numbers::signed))]
    pub fn put_next(&mut self, x: u64)
        requires { length self.old + next_bytes ≤ room }
        ensures text { self.new ≡ self.old ++ spaced (pos x ∷ []) }
        ensures most { length self.new ≤ length self.old + next_bytes }
    {
        self.put_byte(b' ');
        self.put_number(x);
    }

    // A blank, and a signed number.
    #[tactic(auto, using(crate::specs::Appends::appending), unfolding(text_bytes::specs::Numbers::next))]
    pub fn put_next_signed(&mut self, x: i64)
        requires { length self.old + next_signed_bytes ≤ room }
        ensures text { self.new ≡ self.old ++ spaced (x ∷ []) }
        ensures most { length self.new ≤ length self.old + next_signed_bytes }
    {
        self.put_byte(b' ');
        self.put_signed(x);
    }

    // Numbers, a blank before each.
    pub fn put_numbers(&mut self, zs: &[i64])
        requires { length self.old + length zs.now * next_signed_bytes ≤ room }
        ensures text { self.new ≡ self.old ++ spaced zs.now }
        ensures most { length self.new ≤ length self.old + length zs.now * next_signed_bytes }
    {
        for z in zs {
            self.put_next_signed(*z);
        }
    }
}

// How many decimal digits x has.
fn places(x: u64) -> usize
    ensures { Places x result }
{
    if x == 0 {
        return 1;
    }
    x.ilog10() as usize + 1
}

// ---- over a buffer and a length: the lines of a member's end (listen_lines, listen_serve) are appended so

// One byte.
pub fn put_byte(out: &mut [u8; ROOM], len: usize, b: u8) -> usize
    requires { len + 1 ≤ room }
    ensures { Wrote out.old len out.new result (b ∷ []) 1 }
{
    out[len] = b;
    len + 1
}

// The decimal digits of x, the most significant first.
pub fn put_number(out: &mut [u8; ROOM], len: usize, x: u64) -> usize
    requires { len + number_bytes ≤ room }
    ensures { Wrote out.old len out.new result (decimal x) number_bytes }
{
    let k = places(x);
    let end = len + k;
    let mut i = end;
    let mut rest = x;
    while len < i {
        i -= 1;
        out[i] = (DIGIT_ZERO + rest % 10) as u8;
        rest = rest / 10;
    }
    end
}

// A minus where x is below 0, and its size in decimal.
pub fn put_signed(out: &mut [u8; ROOM], len: usize, x: i64) -> usize
    requires { len + signed_bytes ≤ room }
    ensures { Wrote out.old len out.new result (signed x) signed_bytes }
{
    if x < 0i64 {
        let n = put_byte(out, len, b'-');
        return put_number(out, n, magnitude(x) + 1);
    }
    put_number(out, len, magnitude(x))
}

// The bytes of a word. None has more than eleven.
pub fn put_bytes(out: &mut [u8; ROOM], len: usize, word: &[u8]) -> usize
    requires { (len + word_bytes ≤ room) × (length word.now ≤ word_bytes) }
    ensures { Wrote out.old len out.new result word.now word_bytes }
{
    let mut n = len;
    let mut i = 0;
    while i < word.len() {
        n = put_byte(out, n, word[i]);
        i += 1;
    }
    n
}

// A blank, and a number.
pub fn put_next(out: &mut [u8; ROOM], len: usize, x: u64) -> usize
    requires { len + next_bytes ≤ room }
    ensures { Told out.old len out.new result (pos x ∷ []) next_bytes }
{
    let n = put_byte(out, len, b' ');
    put_number(out, n, x)
}

// A blank, and a signed number.
pub fn put_next_signed(out: &mut [u8; ROOM], len: usize, x: i64) -> usize
    requires { len + next_signed_bytes ≤ room }
    ensures { Told out.old len out.new result (x ∷ []) next_signed_bytes }
{
    let n = put_byte(out, len, b' ');
    put_signed(out, n, x)
}

// Numbers, a blank before each. No line has more than a hundred and twelve of them together.
pub fn put_numbers(out: &mut [u8; ROOM], len: usize, zs: &[i64]) -> usize
    requires { (len + rows_bytes ≤ room) × (length zs.now ≤ all_numbers_most) }
    ensures { Told out.old len out.new result zs.now rows_bytes }
{
    let mut n = len;
    let mut i = 0;
    while i < zs.len() {
        n = put_next_signed(out, n, zs[i]);
        i += 1;
    }
    n
}
