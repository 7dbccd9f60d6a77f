// The customer's demands over every sequence of calls: specs/Demands.antt states them, a record each, and
// proofs/Demands.antt proves them, a theorem each. The first demand of the calls that stand beside the table, which are
// interest, bonds, the exchange's text, messages and the gateway: specs/Beside.antt and proofs/Beside.antt. Where the
// bands of a live record stand, and when 9 is answered (W-209): specs/Inside.antt and proofs/Inside.antt. The order of
// every live record (W-213): specs/Order.antt and proofs/Order.antt. This crate has no function: the calls of the desk
// promise to be `step` of the paper, and all this is proved of `step` and `run`. Document 01's own cases stand here too
// (specs/Cases.antt, specs/CaseCalls.antt), since they search far: case 8 tries some 66,667 numbers, and each day of
// case 1 some 21,214. The tables of `paper_desk`, where many edits stand, pin the definitions with smaller figures.

#![tactic(auto)]
