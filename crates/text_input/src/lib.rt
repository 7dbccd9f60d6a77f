// Standard input over a lent buffer: the next line of it, whatever pieces `read` delivers it in.
#![tactic(auto)]

ghost use Rattle.std.specs.Prelude.{◌≡◌, List, ℕ, ◌+◌, ◌-◌, ◌≤◌, length, take, drop};
ghost use Rattle.text_input.specs.Input.{Stands, Waits, Unbroken, Passes, Readied, LongPassed, Hears};
ghost use Rattle.text_bytes.specs.Bytes.{room};

use std::io::Stdin;
use text_evidence::{Delivered, fill, shift};
use text_line::numbers::Numbers;
use text_line::{LONGEST, Line, read_line};
use text_word::find;

// The bytes of the buffer from `at` to `len` are delivered and not used. The next line ends at `end`, or no line is
// whole and `end` is `len`. So many lines may be heard as `left` says, none at the end of the input; and `read` is the
// evidence of what was delivered.
#[derive(Clone, Copy)]
pub struct Input {
    pub at: usize,
    pub end: usize,
    pub len: usize,
    pub left: u64,
    pub read: Delivered,
}

// What waiting led to: where the bytes end, and where their first line feed stands.
#[derive(Clone, Copy)]
pub struct Waited {
    pub len: usize,
    pub end: usize,
    pub read: Delivered,
}

// Where the bytes that were delivered behind a line begin and end.
#[derive(Clone, Copy)]
pub struct Behind {
    pub at: usize,
    pub len: usize,
}

// What passing over the rest of a line led to: what stands behind it, unless the input has ended.
#[derive(Clone, Copy)]
pub struct Passed {
    pub behind: Option<Behind>,
    pub read: Delivered,
}

// Reads until a line feed stands behind the first `have` bytes, which have none, or the buffer is full, or the input
// has ended.
fn wait(stdin: Stdin, buf: &mut [u8], have: usize, before: Delivered) -> Waited
    requires { (length buf.old ≡ room) × (have ≤ room) × Unbroken (take have buf.old) }
    ensures { Waits buf.old have before buf.new result }
{
    let mut len = have;
    let mut read = before;
    loop {
        if len == buf.len() {
            return Waited {
                len,
                end: len,
                read,
            };
        }
        read = fill(stdin, buf, len, read);
        let n = len + read.came();
        if n == len {
            return Waited {
                len,
                end: len,
                read,
            };
        }
        let e = find(&buf[..n], len, b'\n');
        if e < n {
            return Waited {
                len: n,
                end: e,
                read,
            };
        }
        len = n;
    }
}

// Passes over the rest of a line that is longer than the buffer. Nothing says that it ends, so the reads are counted up
// to a number that no run reaches.
fn pass_over(stdin: Stdin, buf: &mut [u8], before: Delivered) -> Passed
    requires { length buf.old ≡ room }
    ensures { Passes before buf.new result }
{
    let mut read = before;
    for _turn in 0..u64::MAX {
        read = fill(stdin, buf, 0, read);
        let n = read.came();
        if n == 0 {
            return Passed { behind: None, read };
        }
        let e = find(&buf[..n], 0, b'\n');
        if e < n {
            let behind = Some(Behind { at: e + 1, len: n });
            return Passed { behind, read };
        }
    }
    Passed { behind: None, read }
}

// So that a line is whole, or the buffer is full, or the input has ended: reads where no line is whole yet.
fn ready(stdin: Stdin, buf: &mut [u8], s: Input) -> Input
    requires { Stands buf.old s }
    ensures { Readied buf.old s buf.new result }
{
    if s.end < s.len {
        return s;
    }
    let n = shift(buf, s.at, s.len);
    let w = wait(stdin, buf, n, s.read);
    Input {
        at: 0,
        end: w.end,
        len: w.len,
        read: w.read,
        ..s
    }
}

// The input from `at` on, with a line fewer to hear.
fn from_place(buf: &[u8], at: usize, len: usize, left: u64, read: Delivered) -> Input
    requires { (at ≤ len) × (len ≤ room) × (length buf.now ≡ room) }
    ensures { (result.at ≡ at) × (result.len ≡ len) × (result.left ≡ left - 1) × (result.read ≡ read)
        × Stands buf.now result }
{
    let end = find(&buf[..len], at, b'\n');
    Input {
        at,
        end,
        len,
        left: left.saturating_sub(1),
        read,
    }
}

// The input where it has ended: nothing is left of it.
fn ended(len: usize, read: Delivered) -> Input
    ensures { result ≡ record { at = len; end = len; len = len; left = 0; read = read } }
{
    Input {
        at: len,
        end: len,
        len,
        left: 0,
        read,
    }
}

// What was heard: the line, the input behind it, and where the line's bytes stand in the buffer, unless it is longer than
// the buffer.
#[derive(Clone, Copy)]
pub struct Heard {
    pub input: Input,
    pub line: Line,
    pub from: usize,
    pub to: usize,
}

// The input behind a line that is longer than the buffer.
fn behind_long(stdin: Stdin, buf: &mut [u8], left: u64, before: Delivered) -> Input
    requires { length buf.old ≡ room }
    ensures { LongPassed before buf.new left result }
{
    let p = pass_over(stdin, buf, before);
    match p.behind {
        Some(b) => from_place(buf, b.at, b.len, left, p.read),
        None => ended(0, p.read),
    }
}

// The next line. Where no line is whole, the input is waited for.
pub fn hear(stdin: Stdin, buf: &mut [u8], xs: &mut Numbers, s: Input) -> Heard
    requires { Stands buf.old s }
    ensures { Hears buf.old s buf.new result xs.new }
{
    let i = ready(stdin, buf, s);
    if i.end < i.len {
        let line = read_line(&buf[i.at..i.end], xs);
        let input = from_place(buf, i.end + 1, i.len, i.left, i.read);
        return Heard {
            input,
            line,
            from: i.at,
            to: i.end,
        };
    }
    if LONGEST < i.len {
        let input = behind_long(stdin, buf, i.left, i.read);
        return Heard {
            input,
            line: Line::Bad,
            from: 0,
            to: 0,
        };
    }
    let line = read_line(&buf[i.at..i.end], xs);
    Heard {
        input: ended(i.len, i.read),
        line,
        from: i.at,
        to: i.end,
    }
}
