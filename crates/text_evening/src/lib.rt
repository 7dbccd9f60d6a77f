// An evening of lines: how they are told. What they do and what they are told as is said in specs/; this crate has no
// function.

#![tactic(auto)]

// How the lines of an evening are told: each with its answer (the program `evening`); an evaluation with why it is what
// it is, and every other line with its answer (`why`); or a call with the messages that members get of it, from the
// line of a number on, and nothing else (`broadcast`).
#[derive(Clone, Copy)]
pub enum Telling {
    Answers,
    Reasons,
    Messages(u64),
}
