// What the evening's text answers to the calls of the table, appended to a text: the parts of a record in order, a
// quote's two alerts or a number alone; and what it answers to a line that is no call.
#![tactic(auto, using(text_out::specs::Appends::appending), unfolding(paper::specs::Verdicts::is_done, text_bytes::specs::Numbers::spaced, text_bytes::specs::Numbers::answer_text, text_protocol::specs::Answers::flag, text_protocol::specs::Answers::bad_text, text_protocol::specs::Roles::figures_shown, text_protocol::specs::Roles::shown_text))]

pub mod interest_line; // an interest line's answer
pub mod record; // the parts of a record
pub mod why; // the answer that says why

ghost use Rattle.std.specs.Prelude.{◌≡◌, [], ◌∷◌, ◌++◌, ◌+◌, ◌≤◌, length};
ghost use Rattle.text_bytes.specs.Bytes.{room};
ghost use Rattle.text_bytes.specs.Numbers.{answer_text, spaced};
ghost use Rattle.text_protocol.specs.Answers.{bad_text, flag, record_numbers, answer_most};
ghost use Rattle.text_protocol.specs.Roles.{shown_text};
ghost use Rattle.text_out.specs.Places.{next_bytes};
ghost use Rattle.text_answer.specs.Sizes.{record_bytes};

use crate::record::{put_external, put_last, put_levels, put_session, put_term};
use paper::{Answer, Record};
use text_out::Text;
use text_protocol::Role;

// A refusal's number, or an admission's 0, stands alone.
pub fn say_number(out: &mut Text, no: u64)
    requires { length out.old + answer_most ≤ room }
    ensures text { out.new ≡ out.old ++ answer_text no [] }
    ensures most { length out.new ≤ length out.old + answer_most }
{
    out.put_number(no);
    out.put_byte(b'\n');
}

// 1 for yes, 0 for no.
fn put_flag(out: &mut Text, yes: bool)
    requires { length out.old + next_bytes ≤ room }
    ensures text { out.new ≡ out.old ++ spaced (flag yes ∷ []) }
    ensures most { length out.new ≤ length out.old + next_bytes }
{
    out.put_next(u64::from(yes));
}

#[tactic(auto, using(text_out::specs::Appends::appending), unfolding(text_protocol::specs::Answers::record_numbers))]
fn put_record(out: &mut Text, r: Record)
    requires { length out.old + record_bytes ≤ room }
    ensures text { out.new ≡ out.old ++ spaced (record_numbers r) }
    ensures most { length out.new ≤ length out.old + record_bytes }
{
    put_levels(out, r);
    put_term(out, r.terms[0], r.bands[0], r.near[0]);
    put_term(out, r.terms[1], r.bands[1], r.near[1]);
    put_term(out, r.terms[2], r.bands[2], r.near[2]);
    put_last(out, r);
    put_session(out, r.session);
    put_external(out, r.external);
}

// A quote's two alerts.
pub fn say_alerts(out: &mut Text, top: bool, bottom: bool)
    requires { length out.old + answer_most ≤ room }
    ensures text { out.new ≡ out.old ++ answer_text 0 (flag top ∷ flag bottom ∷ []) }
    ensures most { length out.new ≤ length out.old + answer_most }
{
    out.put_number(0);
    put_flag(out, top);
    put_flag(out, bottom);
    out.put_byte(b'\n');
}

pub fn say_record(out: &mut Text, r: Record)
    requires { length out.old + answer_most ≤ room }
    ensures text { out.new ≡ out.old ++ answer_text 0 (record_numbers r) }
    ensures most { length out.new ≤ length out.old + answer_most }
{
    out.put_number(0);
    put_record(out, r);
    out.put_byte(b'\n');
}

// What is answered to a call of a role: a refusal's number alone; where it is accepted, what a call of the role shows.
pub fn say_answer(out: &mut Text, role: Role, a: Answer)
    requires { length out.old + answer_most ≤ room }
    ensures text { out.new ≡ out.old ++ shown_text role a }
    ensures most { length out.new ≤ length out.old + answer_most }
{
    let no = a.verdict.number();
    if no != 0 {
        return say_number(out, no);
    }
    match role {
        Role::Admission(_) => say_number(out, 0),
        Role::Quote => say_alerts(out, a.top, a.bottom),
        Role::Evaluation(_, _) | Role::Move(_) | Role::Opening | Role::Other => say_record(
            out, a.rec,
        ),
    }
}

// "bad" and the line's number: the answer to a line that is no call.
pub fn say_bad(out: &mut Text, number: u64)
    requires { length out.old + answer_most ≤ room }
    ensures text { out.new ≡ out.old ++ bad_text number }
    ensures most { length out.new ≤ length out.old + answer_most }
{
    out.put_bytes(b"bad");
    out.put_next(number);
    out.put_byte(b'\n');
}
