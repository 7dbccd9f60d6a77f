// What a line asks for, and what is answered to it at once where that stands beside the table; and the text of its
// answer, in each way that lines are told. A way of telling more is a case more of `asks_why`, `say` and
// `say_call`.
#![tactic(auto, using(text_out::specs::Appends::appending), unfolding(text_evening::specs::Evening::worded, crate::specs::Deeds::asks_why, crate::specs::Deeds::fault_shown, crate::specs::Deeds::reason_for, crate::specs::Deeds::reasons_in, crate::specs::Deeds::call_said, crate::specs::Deeds::line_text, crate::specs::Deeds::ask_count, crate::specs::Deeds::line_count))]

ghost use Rattle.std.specs.Prelude.{◌≡◌, List, ◌++◌, ◌+◌, ◌≤◌, ℤ, length};
ghost use Rattle.text_bytes.specs.Bytes.{room};
ghost use Rattle.text_protocol.specs.Calls.{deed_of, deed_asked};
ghost use Rattle.text_protocol.specs.Answers.{answer_most};
ghost use Rattle.text_line.specs.ReadLine.{said_as, said};
ghost use Rattle.text_deed.specs.Deeds.{asks_why, fault_shown, reason_said, reasons_in, call_said, line_text};
ghost use Rattle.text_deed.specs.Deeds.{ask_count, line_count, AsksFor};

use paper::{Answer, InterestAnswer, Verdict};
use paper_bonds::BondAnswer;
use paper_reasons::{Reasons, Why};
use record_reasons::fields::field_at_fault;
use text_answer::interest_line::say_interest;
use text_answer::why::{say_field, say_why};
use text_answer::{say_answer, say_bad};
use text_bond::{bond_of, say_bond};
use text_broadcast::{count_messages, say_messages};
use text_call::kept::kept_after;
use text_call::{call_of, figures, interest_of};
use text_evening::Telling;
use text_line::Line;
use text_out::Text;
use text_protocol::{Ask, CallKind, Kept, Pairs, Performed, Role, bond_place, interest_place};

// What the calls beside the table answer to a line, the interest side's and a bond's: only the one that the line asks
// for counts.
#[derive(Clone, Copy)]
pub struct Beside {
    pub interest: InterestAnswer,
    pub bond: BondAnswer,
}

// What a line asks for, what is answered to it beside the table, and what is kept of the interest lines then.
#[derive(Clone, Copy)]
pub struct LineDeed {
    pub ask: Ask,
    pub beside: Beside,
    pub kept: Kept,
}

// ---- what a line asks for

// What a line of a kind asks for, with the numbers `zs` and the pairs `p`, where `k` is kept of the interest lines
// before it.
fn ask_of(zs: &[i64], kind: u64, p: Pairs, k: Kept) -> Ask
    ensures { deed_asked result zs.now ≡ deed_of k (said_as kind zs.now p) }
{
    match kind {
        CallKind::BLANK => Ask::Nothing,
        CallKind::BAD => Ask::NoCall,
        CallKind::INTEREST => Ask::Interest(interest_of(zs)),
        CallKind::BOND => Ask::Bond(bond_of(k, p, zs)),
        _ => Ask::Call(call_of(zs, kind, p, k)),
    }
}

// An answer of the interest side. The bond's beside it is a refusal, which nothing prints.
fn of_interest(interest: InterestAnswer) -> Beside
    ensures { result.interest ≡ interest }
{
    Beside {
        interest,
        bond: bond::refused(Verdict::OutOfRange),
    }
}

// A bond's answer. The interest side's beside it is a refusal, which nothing prints.
fn of_bond(bond: BondAnswer) -> Beside
    ensures { result.bond ≡ bond }
{
    Beside {
        interest: interest::refused(Verdict::OutOfRange),
        bond,
    }
}

// What a line that is answered by the desk, or not at all, asks for.
fn of_desk(ask: Ask, k: Kept) -> LineDeed
    ensures { (result.ask ≡ ask) × (result.kept ≡ k) }
{
    LineDeed {
        ask,
        beside: of_bond(bond::refused(Verdict::OutOfRange)),
        kept: k,
    }
}

// What a line of a kind asks for, and what is answered to it beside the table.
pub fn deed_of_kind(zs: &[i64], kind: u64, pairs: Pairs, k: Kept) -> LineDeed
    ensures { AsksFor k (deed_of k (said_as kind zs.now pairs)) zs.now result }
{
    let ask = ask_of(zs, kind, pairs, k);
    match ask {
        Ask::Nothing => of_desk(ask, k),
        Ask::NoCall => of_desk(ask, k),
        Ask::Call(_) => of_desk(ask, k),
        Ask::Interest(given) => {
            let i = interest::answer(given, figures(zs, interest_place::COUNT));
            LineDeed {
                ask,
                beside: of_interest(i),
                kept: kept_after(k, given, i),
            }
        }
        Ask::Bond(given) => {
            let b = bond::answer(given, figures(zs, bond_place::COUNT));
            LineDeed {
                ask,
                beside: of_bond(b),
                kept: k,
            }
        }
    }
}

// A line's kind, and its pairs.
fn kind_and_pairs(l: Line) -> (u64, Pairs)
    ensures { (zs : List ℤ) → said_as result.0 zs result.1 ≡ said l zs }
{
    match l {
        Line::Blank => (CallKind::BLANK, Pairs::default()),
        Line::Bad => (CallKind::BAD, Pairs::default()),
        Line::Call(kind, pairs) => (kind.number(), pairs),
    }
}

// What a line asks for, and what is answered to it beside the table.
pub fn deed_of(zs: &[i64], l: Line, k: Kept) -> LineDeed
    ensures { AsksFor k (deed_of k (said l zs.now)) zs.now result }
{
    let (kind, pairs) = kind_and_pairs(l);
    deed_of_kind(zs, kind, pairs, k)
}

// ---- what a line is told as

// Whether why is asked of the calls that have reasons.
pub fn asks_why(telling: Telling) -> bool
    ensures { result ≡ asks_why telling }
{
    match telling {
        Telling::Answers => false,
        Telling::Reasons | Telling::Messages(_) => true,
    }
}

// Appends an answer without a reason, and of an admission the number of its line that is at fault.
fn say_fault(out: &mut Text, role: Role, answer: Answer)
    requires { length out.old + answer_most ≤ room }
    ensures text { out.new ≡ out.old ++ fault_shown role answer }
    ensures most { length out.new ≤ length out.old + answer_most }
{
    if let Role::Admission(given) = role {
        say_field(out, answer.verdict, field_at_fault(given));
    } else {
        say_answer(out, role, answer);
    }
}

// Appends why a call of a role is answered as it is, or its answer where no reason is named.
fn say_reason(out: &mut Text, role: Role, p: Performed)
    requires { length out.old + answer_most ≤ room }
    ensures text { out.new ≡ out.old ++ reason_said role p }
    ensures most { length out.new ≤ length out.old + answer_most }
{
    match p.why {
        None => say_fault(out, role, p.answer),
        Some(why) => say_why(out, why),
    }
}

// The reasons that were said; none where no reason was asked for.
fn reasons_in(why: Option<Why>) -> Reasons
    ensures { result ≡ reasons_in why }
{
    match why {
        None => record_reasons::no_reasons(),
        Some(said) => said.reasons,
    }
}

// Appends what the line of a number, a call of a role, is told as.
fn say_call(out: &mut Text, telling: Telling, number: u64, role: Role, p: Performed)
    requires { length out.old + answer_most ≤ room }
    ensures text { out.new ≡ out.old ++ call_said telling number role p }
    ensures most { length out.new ≤ length out.old + answer_most }
{
    match telling {
        Telling::Answers => say_answer(out, role, p.answer),
        Telling::Reasons => say_reason(out, role, p),
        Telling::Messages(from) => {
            if from <= number {
                say_messages(out, role, p.answer, reasons_in(p.why));
            }
        }
    }
}

// Appends what a line is told as. What is no call is told in words alone.
pub fn say(out: &mut Text, telling: Telling, a: Ask, number: u64, b: Beside, p: Performed)
    requires { length out.old + answer_most ≤ room }
    ensures text { out.new ≡ out.old ++ line_text telling a number b p }
    ensures most { length out.new ≤ length out.old + answer_most }
{
    if let Ask::Call(c) = a {
        return say_call(out, telling, number, c.role(), p);
    }
    if let Telling::Messages(_) = telling {
        return;
    }
    match a {
        Ask::Nothing | Ask::Call(_) => {}
        Ask::NoCall => say_bad(out, number),
        Ask::Interest(_) => say_interest(out, b.interest),
        Ask::Bond(_) => say_bond(out, b.bond),
    }
}

// ---- how many messages a line is told as

// What is asked for, by the number that it was answered with.
fn count_asked(a: Ask, verdict: Verdict) -> u64
    ensures { result ≡ ask_count a verdict }
{
    match a {
        Ask::Call(c) => count_messages(c.role(), verdict),
        Ask::Nothing | Ask::NoCall | Ask::Interest(_) | Ask::Bond(_) => 0,
    }
}

// The line of a number.
pub fn count(telling: Telling, a: Ask, number: u64, verdict: Verdict) -> u64
    ensures { result ≡ line_count telling a number verdict }
{
    match telling {
        Telling::Messages(from) if from <= number => count_asked(a, verdict),
        _ => 0,
    }
}
