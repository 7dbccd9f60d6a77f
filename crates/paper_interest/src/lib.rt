// The interest side's definitions (document 02, W-201), their cases and what is proved of them. This crate has no
// function: its values are declared in `paper`, and the crates `interest_*` and `interest` promise these definitions.

#![tactic(auto)]
