// What a line asks for goes to the desk. Where it is asked why of an evaluation, `desk::reasons` says it first, on the
// table as it stands; then the call is performed. Nothing here looks into an answer or a reason.
#![tactic(auto)]

ghost use Rattle.std.specs.Prelude.{◌≡◌, true};
ghost use Rattle.record_answers.specs.Effects.{is_known};
ghost use Rattle.desk.specs.Guesses.{slot_at};
ghost use Rattle.text_ask.specs.WithReasons.{unasked, id_asked};
ghost use Rattle.text_ask.specs.WithReasons.{DoneOf, AsksAt};

use desk::reasons::why_asked;
use desk::{about_known, admit};
use paper::{Answer, Record, Verdict};
use paper_reasons::Why;
use text_protocol::{Ask, AskedCall, Performed, Role};

// The id of the security that is asked about; 0 where none is.
pub fn id_asked(a: Ask) -> u64
    ensures { result ≡ id_asked a }
{
    match a {
        Ask::Nothing => return 0,
        Ask::NoCall => return 0,
        Ask::Call(c) => match c {
            AskedCall::Admit(_) => return 0,
            AskedCall::About(id, _) => return id,
        },
        Ask::Interest(_) => return 0,
        Ask::Bond(_) => return 0,
    }
}

// A call goes to the call of the desk that it is. The security that it asks about stands at a place, which the caller
// has found, and may know to be a known one. Every table is taken, and nothing is refused here: the desk's call refuses.
fn perform(t: &mut [Record], at: usize, known: bool, c: AskedCall, rows: &[i64]) -> Answer
    requires { known ≡ true → is_known (slot_at t.old at) ≡ true }
    ensures { DoneOf at c rows.now t.old result t.new }
{
    match c {
        AskedCall::Admit(a) => return admit(t, a),
        AskedCall::About(_, x) => return about_known(t, at, known, x, rows),
    }
}

// To a line that is no call of the desk, nothing is answered here: nothing prints this.
fn unasked() -> Performed
    ensures { result ≡ unasked }
{
    Performed {
        answer: record_answers::saying(Verdict::Done),
        why: None,
    }
}

// What the desk says to what a line asks for. Only a call in the role of an evaluation has reasons, and they are asked
// before the table changes. A line that is no call of the desk leaves the table as it is. `perform` is called at one
// place, so that it is no call of the machine's, which would copy what goes in and out.
pub fn ask(t: &mut [Record], at: usize, known: bool, a: Ask, rows: &[i64], asked: bool) -> Performed
    requires { known ≡ true → is_known (slot_at t.old at) ≡ true }
    ensures { AsksAt at asked a rows.now t.old result t.new }
{
    let Ask::Call(c) = a else {
        return unasked();
    };
    let mut why = None;
    if asked {
        if let Role::Evaluation(id, day) = c.role() {
            why = Some(why_asked(t, id, day, rows));
        }
    }
    let answer = perform(t, at, known, c, rows);
    Performed { answer, why }
}
