// An interest line's answer, appended to a text.
#![tactic(auto, using(text_out::specs::Appends::appending), unfolding(paper::specs::Verdicts::is_done, text_bytes::specs::Numbers::spaced, text_bytes::specs::Numbers::answer_text, text_protocol::specs::Answers::maturity_numbers, text_protocol::specs::Answers::interest_numbers, text_protocol::specs::Answers::interest_text))]

ghost use Rattle.std.specs.Prelude.{◌≡◌, ◌++◌, ◌+◌, ◌≤◌, length};
ghost use Rattle.text_bytes.specs.Bytes.{room};
ghost use Rattle.text_bytes.specs.Numbers.{answer_text, spaced};
ghost use Rattle.text_protocol.specs.Answers.{maturity_numbers, maturities_numbers, interest_numbers};
ghost use Rattle.text_protocol.specs.Answers.{interest_text, answer_most};
ghost use Rattle.text_answer.specs.Sizes.{key_bytes, keys_bytes};

use crate::say_number;
use paper::{InterestAnswer, Maturity, MaturityFigures};
use text_out::Text;

// CHANGE VOLATILITY TENTATIVE AGE UP DOWN
fn put_maturity(out: &mut Text, f: MaturityFigures)
    requires { length out.old + key_bytes ≤ room }
    ensures text { out.new ≡ out.old ++ spaced (maturity_numbers f) }
    ensures most { length out.new ≤ length out.old + key_bytes }
{
    out.put_next(f.change);
    out.put_next(f.volatility);
    out.put_next(f.tentative.bp);
    out.put_next(f.tentative.age);
    out.put_next(f.up);
    out.put_next(f.down);
}

// Of each of the first `count` key maturities.
fn put_maturities(out: &mut Text, figures: [MaturityFigures; Maturity::COUNT_MOST], count: u64)
    requires { length out.old + keys_bytes ≤ room }
    ensures text { out.new ≡ out.old ++ spaced (maturities_numbers count figures) }
    ensures most { length out.new ≤ length out.old + keys_bytes }
{
    let told = count.min(Maturity::COUNT_MOST as u64) as usize;
    for f in &figures[..told] {
        put_maturity(out, *f);
    }
}

// LOWER UPPER, and the figures of each key maturity.
fn say_worked(out: &mut Text, a: InterestAnswer)
    requires { length out.old + answer_most ≤ room }
    ensures text { out.new ≡ out.old ++ answer_text 0 (interest_numbers a) }
    ensures most { length out.new ≤ length out.old + answer_most }
{
    out.put_number(0);
    out.put_next_signed(a.pair.lower);
    out.put_next_signed(a.pair.upper);
    put_maturities(out, a.figures, a.count);
    out.put_byte(b'\n');
}

pub fn say_interest(out: &mut Text, a: InterestAnswer)
    requires { length out.old + answer_most ≤ room }
    ensures text { out.new ≡ out.old ++ interest_text a }
    ensures most { length out.new ≤ length out.old + answer_most }
{
    let no = a.pair.verdict.number();
    if no == 0 {
        return say_worked(out, a);
    }
    say_number(out, no);
}
