// What document 01 works out and answers: the evaluation, the rates, the limits, the alerts, the seven calls, sequences
// of them and the gateway, with the tables that pin them and what is proved of them. This crate has no function: its
// values are declared in `paper`, which also has the ranges that they stand on.

#![tactic(auto)]
