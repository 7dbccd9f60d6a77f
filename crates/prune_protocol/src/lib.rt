// Which of a journal's lines no longer matter: what pruning leaves out (specs/Pruning.antt), and that the lines it
// leaves lead to the same desk (specs/Holds.antt states it, proofs/ prove it). This crate has no function: it stands
// above the journal's definitions, and above the demands, which say that no accepted call makes a damaged record.

#![tactic(auto)]
