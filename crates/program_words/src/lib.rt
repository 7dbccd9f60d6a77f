// What the programs share: a word that they were started with, and what they say where a read or a write failed. No
// contract can say which words a program is started with.
#![tactic(auto)]

use std::marker::Model;
use text_evidence::{Delivered, Written, arg};

// No argument is longer on Linux.
pub const WORD_ROOM: usize = 131_072;

// A word that the program was started with, in so much room as its program gives it: a program that knows which words it
// takes needs no more room than they have.
#[derive(Drop)]
pub struct Word<const ROOM: usize> {
    bytes: [u8; ROOM],
    length: usize,
}

impl<const ROOM: usize> Model for Word<ROOM> {
    ghost use Rattle.std.specs.Prelude.{ℕ, List, ◌≤◌, take};

    ghost Value = { List ℕ };

    ghost view = { λ w. take w.length w.bytes };

    ghost invariant = { λ w. w.length ≤ ROOM };
}

impl<const ROOM: usize> Word<ROOM> {
    ghost use Rattle.std.specs.Prelude.{◌≡◌, ◌≤◌, [], length};

    // Before a word is taken.
    pub fn none() -> Word<ROOM>
        ensures { result ≡ [] }
    {
        Word {
            bytes: [0; ROOM],
            length: 0,
        }
    }

    // The i-th word, the program's name at 0; empty where there is no such word, or no room for it. It is taken where it
    // stands: to hand out so much room by value would copy it.
    pub fn take(&mut self, rt: HostRuntime, i: usize)
        ensures { length self.new ≤ ROOM }
    {
        self.length = arg(rt, i, &mut self.bytes);
    }

    pub fn as_slice(&self) -> &[u8]
        ensures { result.now ≡ self.now }
    {
        &self.bytes[..self.length]
    }
}

// Says on standard error where a read or a write failed.
pub fn report(rt: HostRuntime, program: &str, read: Delivered, told: Written) {
    if read.has_failed() || !told.took_all() {
        let failed = if told.took_all() { "read" } else { "write" };
        let _ = eprintln!(rt; "{program}: could not {failed}");
    }
}
