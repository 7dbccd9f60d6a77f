// The journal in which a desk keeps its lines from evening to evening: what an entry is, what a journal's bytes are, what
// recovery makes of any bytes, and which lines are kept (specs/). This crate has no function.

#![tactic(auto)]
