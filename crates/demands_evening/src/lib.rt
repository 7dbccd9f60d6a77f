// From the bytes of an evening to the demands: specs/Holds.antt states what holds of every evening, whatever bytes it
// is delivered, proofs/Holds.antt proves it by one theorem, and proofs/Served.antt says it of what `text_serve::serve`
// promises. That an accepted call is broadcast whole, after every sequence of calls (document 02, W-212):
// specs/Whole.antt and proofs/Whole.antt. This crate has no function: it stands above the demands, which speak of
// calls, and above the text, which speaks of lines.

#![tactic(auto)]
