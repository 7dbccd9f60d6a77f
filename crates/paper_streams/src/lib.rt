// docs/BROADCAST.md, "A whole stream": what a reader keeps of a stream. specs/ defines what is right; proofs/ proves it.
// It may use `sums`, `paper` and `paper_messages`.

#![tactic(auto)]

// How far a stream is heard: whether it began, how many messages of it came, and the sum of their bytes.
#[derive(Clone, Copy)]
pub struct Stream {
    pub began: bool,
    pub count: u64,
    pub sum: u32,
}

impl Stream {
    // The number of an `end` that does not fit its stream.
    pub const NOT_WHOLE: u64 = 25;
}
