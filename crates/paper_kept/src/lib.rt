// What every accepted call keeps of a record: that it is good, which is sound and within its moves (`Kept` of
// `paper_desk`). Soundness by itself is not kept (`NotKept` of `demands`). proofs/Sound.antt has a sound record in its
// parts, proofs/Good.antt what each accepted call writes, and proofs/Made.antt that of whatever is asked. This crate has no
// function: it is proved of the paper's definitions. The demands stand on it, and the evening's text, which does not
// judge a good record twice.

#![tactic(auto)]
