// The two calls of std by which the text's programs read and write, and what a call did, as a value. The fields of
// these values are private: no other crate can build one, so that whoever claims that the input has ended, that all was
// written or that a write failed must hold the evidence. What these two calls did no contract can say: `fill` and `hand`
// are what a reader has to see for himself.
#![tactic(auto)]

ghost use Rattle.std.specs.Prelude.{◌≡◌, ◌-◌, ◌≤◌, length, take, drop};
ghost use Rattle.text_evidence.specs.Evidence.{unread, unwritten, has_ended, has_failed, is_well};
ghost use Rattle.text_evidence.specs.Evidence.{took_all, Fills, Hands};

use std::env::{Env, FillError};
use std::io::{Read, Stdin, Stdout, Write};

// ---- the input

// What `read` did: so many bytes came in `all` its calls so far, as many as 64 bits can count; the last call offered
// so much `room`, so many bytes `came`, and it `failed` unless that is 0, as std said. Each field fills its eight bytes:
// the state is copied in every turn, and a yes or no would be copied with a gap beside it, which takes longer than all
// four.
#[derive(Clone, Copy)]
pub struct Delivered {
    all: u64,
    room: usize,
    came: usize,
    failed: u64,
}

// Before the first call: no room was offered, so that nothing is said of the input's end.
pub fn unread() -> Delivered
    ensures { result ≡ unread }
{
    Delivered {
        all: 0,
        room: 0,
        came: 0,
        failed: 0,
    }
}

impl Delivered {
    // How many bytes came in all calls so far.
    pub fn all(self) -> u64
        ensures { result ≡ self.all }
    {
        self.all
    }

    // How many bytes came in the last call.
    pub fn came(self) -> usize
        ensures { result ≡ self.came }
    {
        self.came
    }

    // Whether the input has ended: room was offered, and nothing came.
    pub fn has_ended(self) -> bool
        ensures { result ≡ has_ended self }
    {
        (0 < self.room) & (self.came == 0)
    }

    // Whether a read failed: nothing came, and std said so.
    pub fn has_failed(self) -> bool
        ensures { result ≡ has_failed self }
    {
        (0 < self.room) & (self.came == 0) & !(self.failed == 0)
    }

    // Whether the input has ended, and no read failed.
    pub fn is_well(self) -> bool
        ensures { result ≡ is_well self }
    {
        (0 < self.room) & (self.came == 0) & (self.failed == 0)
    }
}

// The bytes from `from` to `to` of a buffer, moved to the front, so that a read finds room behind them.
pub fn shift(buf: &mut [u8], from: usize, to: usize) -> usize
    requires { (from ≤ to) × (to ≤ length buf.old) }
    ensures { (result ≡ to - from) × (take (to - from) buf.new ≡ take (to - from) (drop from buf.old)) × (length buf.new ≡ length buf.old) }
{
    buf.copy_within(from..to, 0);
    to - from
}

// 65,536 zeros: room for what is read, or for what waits to be written.
pub fn large_buffer() -> [u8; 65536]
    ensures { 65536 ≡ length result }
{
    [0; 65536]
}

// One read from standard input, behind the first `have` bytes of the buffer. A read that fails delivers nothing.
pub fn fill(stdin: Stdin, buf: &mut [u8], have: usize, before: Delivered) -> Delivered
    requires { have ≤ length buf.old }
    ensures { Fills buf.old have before buf.new result }
{
    let mut input = stdin;
    let got = input.read(&mut buf[have..]);
    let failed = u64::from(got.is_err());
    let came = got.unwrap_or(0);
    Delivered {
        all: before.all.saturating_add(came as u64),
        room: buf.len() - have,
        came,
        failed,
    }
}

// ---- the output

// What `write` did: so many bytes were handed to it in `all` its calls so far, as many as 64 bits can count; of the
// bytes that were `handed` over last so many were `taken`.
#[derive(Clone, Copy)]
pub struct Written {
    all: u64,
    handed: usize,
    taken: usize,
}

// Before the first call: nothing was handed over, and all of it was taken.
pub fn unwritten() -> Written
    ensures { result ≡ unwritten }
{
    Written {
        all: 0,
        handed: 0,
        taken: 0,
    }
}

impl Written {
    // Whether all that was handed over last was taken.
    pub fn took_all(self) -> bool
        ensures { result ≡ took_all self }
    {
        self.taken == self.handed
    }
}

// Hands the first n bytes to standard output, and says how many of them were taken: all of them, unless a write took
// nothing or failed. A short write is tried again: no index is counted, since `taken` grows by what each write took.
fn write(stdout: Stdout, out: &[u8], n: usize) -> usize
    requires { n ≤ length out.now }
    ensures { result ≤ n }
{
    let mut output = stdout;
    let mut taken = 0;
    while taken < n {
        match output.write(&out[taken..n]) {
            Ok(0) | Err(_) => return taken,
            Ok(took) => taken += took,
        }
    }
    taken
}

// The same, with its evidence.
#[tactic(auto, unfolding(crate::specs::Evidence::counted))]
pub fn hand(stdout: Stdout, out: &[u8], n: usize, before: Written) -> Written
    requires { n ≤ length out.now }
    ensures { Hands n before result }
{
    let taken = write(stdout, out, n);
    Written {
        all: before.all.saturating_add(n as u64),
        handed: n,
        taken,
    }
}

// ---- the words that the program was started with

// Puts the i-th word at the start of the buffer, and says how many bytes it has: 0 where there is no such word, or the
// buffer has no room for it. The word at 0 is the program's name.
pub fn arg(rt: HostRuntime, i: usize, buf: &mut [u8]) -> usize
    ensures { (result ≤ length buf.new) × (length buf.new ≡ length buf.old) }
{
    rt.arg(i, buf).unwrap_or(0)
}

// Whether there is an i-th word.
fn is_there(rt: HostRuntime, i: usize) -> bool {
    !matches!(rt.arg(i, &mut []), Err(FillError::NotPresent))
}

// How many words there are, the program's name among them. No contract can say which words a program is started with.
pub fn arg_count(rt: HostRuntime) -> usize {
    (0..usize::MAX).take_while(|i| is_there(rt, *i)).count()
}
