// The answers that say why (document 02, W-207), appended to a text. A word is appended with a blank before it, so that
// each contract is the bytes of some words. Nothing here depends on how a reason is found.
#![tactic(auto, using(text_out::specs::Appends::appending, crate::proofs::ReasonWords::spelled_both), unfolding(paper::specs::Verdicts::is_done, text_bytes::specs::Numbers::next, text_bytes::specs::Numbers::signed, text_protocol::specs::Reasons::figure_words, text_protocol::specs::Reasons::reason_words, text_protocol::specs::Reasons::fault_words, text_protocol::specs::Reasons::field_words, text_protocol::specs::Reasons::spelled, text_protocol::specs::Reasons::words_text, text_protocol::specs::Reasons::why_text, text_protocol::specs::Reasons::field_text))]

ghost use Rattle.std.specs.Prelude.{◌≡◌, [], ◌∷◌, ◌++◌, ◌+◌, ◌≤◌, List, ℕ, length};
ghost use Rattle.paper_reasons.specs.Words.{price_word, weight_word, replacement_word, tentative_word, level_word};
ghost use Rattle.text_bytes.specs.Bytes.{room, space};
ghost use Rattle.text_bytes.specs.Numbers.{decimal};
ghost use Rattle.text_protocol.specs.Answers.{answer_most};
ghost use Rattle.text_protocol.specs.Reasons.{deciding_words, figure_words, reason_words, fault_words, spelled};
ghost use Rattle.text_protocol.specs.Reasons.{field_words, why_text, field_text};
ghost use Rattle.text_out.specs.Sizes.{word_bytes, next_word_bytes};
ghost use Rattle.text_answer.specs.WhySizes.{fault_bytes, named_bytes, figures_bytes, reasons_bytes};

use paper::Verdict;
use paper_reasons::{
    Deciding, Fault, LevelReason, PriceReason, Reasons, ReplacementReason, TentativeReason,
    WeightReason, Why,
};
use text_out::Text;

// ---- the word of a reason

// A reason of one of the five kinds, by its word.
trait Reason {
    ghost word_of: { Self → List ℕ };

    fn word(self) -> &'static [u8]
        ensures word { result.now ≡ word_of self }
        ensures most { length result.now ≤ word_bytes };
}

impl Reason for PriceReason {
    ghost word_of = { price_word };

    #[tactic(auto, unfolding(paper_reasons::specs::Words::price_word))]
    fn word(self) -> &'static [u8] {
        match self {
            PriceReason::None => b"none",
            PriceReason::Close => b"close",
            PriceReason::Bid => b"bid",
            PriceReason::Ask => b"ask",
            PriceReason::Yesterday => b"yesterday",
        }
    }
}

impl Reason for WeightReason {
    ghost word_of = { weight_word };

    #[tactic(auto, unfolding(paper_reasons::specs::Words::weight_word))]
    fn word(self) -> &'static [u8] {
        match self {
            WeightReason::None => b"none",
            WeightReason::Zero => b"zero",
            WeightReason::Up => b"up",
            WeightReason::Down => b"down",
        }
    }
}

impl Reason for ReplacementReason {
    ghost word_of = { replacement_word };

    #[tactic(auto, unfolding(paper_reasons::specs::Words::replacement_word))]
    fn word(self) -> &'static [u8] {
        match self {
            ReplacementReason::None => b"none",
            ReplacementReason::Yes => b"yes",
            ReplacementReason::No => b"no",
        }
    }
}

impl Reason for TentativeReason {
    ghost word_of = { tentative_word };

    #[tactic(auto, unfolding(paper_reasons::specs::Words::tentative_word))]
    fn word(self) -> &'static [u8] {
        match self {
            TentativeReason::None => b"none",
            TentativeReason::Rose => b"rose",
            TentativeReason::Fell => b"fell",
            TentativeReason::Waited => b"waited",
            TentativeReason::Level => b"level",
        }
    }
}

impl Reason for LevelReason {
    ghost word_of = { level_word };

    #[tactic(auto, unfolding(paper_reasons::specs::Words::level_word))]
    fn word(self) -> &'static [u8] {
        match self {
            LevelReason::None => b"none",
            LevelReason::Requirement => b"requirement",
            LevelReason::Minimum => b"minimum",
            LevelReason::Maximum => b"maximum",
        }
    }
}

// ---- the answer

// A blank, and a word.
fn put_word(out: &mut Text, word: &[u8])
    requires room { length out.old + next_word_bytes ≤ room }
    requires short { length word.now ≤ word_bytes }
    ensures text { out.new ≡ out.old ++ space ∷ word.now }
    ensures most { length out.new ≤ length out.old + next_word_bytes }
{
    out.put_byte(b' ');
    out.put_bytes(word);
}

// What is named, and its reason.
fn put_named<R: Reason>(out: &mut Text, name: &[u8], reason: R)
    requires room { length out.old + named_bytes ≤ room }
    requires short { length name.now ≤ word_bytes }
    ensures text { out.new ≡ out.old ++ spelled (name.now ∷ R.word_of reason ∷ []) }
    ensures most { length out.new ≤ length out.old + named_bytes }
{
    put_word(out, name);
    put_word(out, reason.word());
}

// The figures that decided: R S0 X Y S T.
fn put_deciding(out: &mut Text, f: Deciding)
    requires { length out.old + figures_bytes ≤ room }
    ensures text { out.new ≡ out.old ++ spelled (deciding_words f) }
    ensures most { length out.new ≤ length out.old + figures_bytes }
{
    put_word(out, b"figures");
    out.put_next(f.r);
    out.put_next(f.before);
    out.put_next(f.x);
    out.put_next(f.y);
    out.put_next(f.s);
    out.put_next(f.t);
}

// The figures that decided, or nothing where none did.
fn put_figures(out: &mut Text, figures: Option<Deciding>)
    requires { length out.old + figures_bytes ≤ room }
    ensures text { out.new ≡ out.old ++ spelled (figure_words figures) }
    ensures most { length out.new ≤ length out.old + figures_bytes }
{
    if let Some(f) = figures {
        put_deciding(out, f);
    }
}

// What is named of an accepted evaluation, each with its reason, and the figures that decided.
fn put_reasons(out: &mut Text, r: Reasons)
    requires { length out.old + reasons_bytes ≤ room }
    ensures text { out.new ≡ out.old ++ spelled (reason_words r) }
    ensures most { length out.new ≤ length out.old + reasons_bytes }
{
    put_named(out, b"price", r.price);
    put_named(out, b"weight", r.weight);
    put_named(out, b"replacement", r.replacement);
    put_named(out, b"tentative", r.tentative);
    put_named(out, b"level1", r.level1);
    put_named(out, b"level2", r.level2);
    put_named(out, b"level3", r.level3);
    put_figures(out, r.figures);
}

// A word, and a number.
fn put_numbered(out: &mut Text, word: &[u8], number: u64)
    requires room { length out.old + fault_bytes ≤ room }
    requires short { length word.now ≤ word_bytes }
    ensures text { out.new ≡ out.old ++ spelled (word.now ∷ decimal number ∷ []) }
    ensures most { length out.new ≤ length out.old + fault_bytes }
{
    put_word(out, word);
    out.put_next(number);
}

// What is at fault in a refused evaluation: a row, a term, or none.
fn put_fault(out: &mut Text, fault: Option<Fault>)
    requires { length out.old + fault_bytes ≤ room }
    ensures text { out.new ≡ out.old ++ spelled (fault_words fault) }
    ensures most { length out.new ≤ length out.old + fault_bytes }
{
    match fault {
        None => put_word(out, b"none"),
        Some(Fault::Row(number)) => put_numbered(out, b"row", number),
        Some(Fault::Term(number)) => put_numbered(out, b"term", number),
    }
}

// The number of the verdict, and why.
pub fn say_why(out: &mut Text, y: Why)
    requires { length out.old + answer_most ≤ room }
    ensures text { out.new ≡ out.old ++ why_text y }
    ensures most { length out.new ≤ length out.old + answer_most }
{
    let no = y.verdict.number();
    out.put_number(no);
    if no == 0 {
        put_reasons(out, y.reasons);
    } else {
        put_fault(out, y.fault);
    }
    out.put_byte(b'\n');
}

// The number at fault in an admission, or nothing.
fn put_field(out: &mut Text, field: Option<u64>)
    requires { length out.old + fault_bytes ≤ room }
    ensures text { out.new ≡ out.old ++ spelled (field_words field) }
    ensures most { length out.new ≤ length out.old + fault_bytes }
{
    if let Some(place) = field {
        put_numbered(out, b"field", place);
    }
}

// The number of an admission's verdict, and the number of the line that is at fault.
pub fn say_field(out: &mut Text, verdict: Verdict, field: Option<u64>)
    requires { length out.old + answer_most ≤ room }
    ensures text { out.new ≡ out.old ++ field_text verdict field }
    ensures most { length out.new ≤ length out.old + answer_most }
{
    out.put_number(verdict.number());
    put_field(out, field);
    out.put_byte(b'\n');
}
