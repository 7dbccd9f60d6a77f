// What a line is broadcast as (document 02, W-212): the messages of its call, by the call's role, appended to a text by
// the writer of the library; and the messages that begin and end a stream of them. Nothing here depends on how a message
// is encoded.
#![tactic(auto, using(text_out::specs::Appends::appending), unfolding(paper_messages::specs::Broadcast::all_sent, crate::specs::Sent::messages_shown, crate::specs::Sent::shown_to, crate::specs::Sent::broadcast_shown, crate::specs::Sent::count_shown))]

ghost use Rattle.std.specs.Prelude.{◌≡◌, ◌++◌, ◌+◌, ◌≤◌, length};
ghost use Rattle.text_bytes.specs.Bytes.{room};
ghost use Rattle.text_protocol.specs.Answers.{answer_most};
ghost use Rattle.paper_messages.specs.Broadcast.{message_most, sent};
ghost use Rattle.paper_messages.specs.Bytes.{signed_of};
ghost use Rattle.paper_messages.specs.Fields.{sum_width};
ghost use Rattle.paper_streams.specs.Streams.{begin_message, end_message};
ghost use Rattle.text_broadcast.specs.Sent.{broadcast_shown, count_shown};

use inputs::statics_of;
use message_records::{
    bands_message, message, move_message, rates_message, reasons_message, session_message,
    statics_message, value_of,
};
use messages::write;
use paper::{Answer, Verdict};
use paper_messages::Message;
use paper_reasons::Reasons;
use paper_streams::Stream;
use text_out::Text;
use text_protocol::Role;

// One message: nothing, where the writer refuses it for a field out of its range.
pub fn send(out: &mut Text, m: Message)
    requires { length out.old + message_most ≤ room }
    ensures text { out.new ≡ out.old ++ sent m }
    ensures most { length out.new ≤ length out.old + message_most }
{
    let mut message = [0; Message::BYTES_MOST];
    let length = write(&mut message, m).unwrap_or(0);
    out.put_bytes(&message[..length]);
}

// What a call of a role sends where it is accepted: kind 1 of an admission, 2, 3 and 5 of an evaluation, 4 of a move, 8
// of an opening. A refused call sends nothing.
pub fn say_messages(out: &mut Text, role: Role, answer: Answer, reasons: Reasons)
    requires { length out.old + answer_most ≤ room }
    ensures text { out.new ≡ out.old ++ broadcast_shown role answer reasons }
    ensures most { length out.new ≤ length out.old + answer_most }
{
    if !answer.verdict.is_done() {
        return;
    }
    match role {
        Role::Admission(admission) => {
            send(
                out,
                statics_message(admission.id, statics_of(admission.given)),
            );
        }
        Role::Evaluation(_, _) => {
            send(out, rates_message(answer.rec));
            send(out, bands_message(answer.rec));
            send(out, reasons_message(answer.rec, reasons));
        }
        Role::Move(side) => send(out, move_message(answer.rec, side)),
        Role::Opening => send(out, session_message(answer.rec)),
        Role::Quote | Role::Other => {}
    }
}

// How many messages those are.
#[tactic(auto, unfolding(crate::specs::Sent::count_shown))]
pub fn count_messages(role: Role, verdict: Verdict) -> u64
    ensures { result ≡ count_shown role verdict }
{
    if !verdict.is_done() {
        return 0;
    }
    match role {
        Role::Admission(_) | Role::Move(_) | Role::Opening => 1,
        Role::Evaluation(_, _) => 3,
        Role::Quote | Role::Other => 0,
    }
}

// ---- what begins and ends a stream

pub fn begin_message() -> Message
    ensures { result ≡ begin_message }
{
    message(Message::BEGIN, &[Message::VERSION])
}

// The greatest number of a sum, and the greatest that its field has as it is.
const SUM_MOST: u64 = 4_294_967_295;

const SIGNED_MOST: u64 = 2_147_483_647;

// A sum as the value of its field, which is signed: what two's complement reads in its four bytes.
fn sum_value(sum: u32) -> i64
    ensures { result ≡ signed_of sum_width sum }
{
    let number = sum as u64;
    if number <= SIGNED_MOST {
        return number as i64;
    }
    -1 - ((SUM_MOST - number) as i64)
}

// How many messages stand before it, and the sum of their bytes.
pub fn end_message(s: Stream) -> Message
    ensures { result ≡ end_message s.count s.sum }
{
    message(Message::END, &[value_of(s.count), sum_value(s.sum)])
}
