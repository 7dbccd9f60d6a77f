// The parts of a record, as every answer that shows one has them, appended to a text. Each contract is a list of
// numbers.
#![tactic(auto, using(text_out::specs::Appends::appending), unfolding(text_bytes::specs::Numbers::spaced, text_protocol::specs::Answers::flag, text_protocol::specs::Answers::near_number, text_protocol::specs::Answers::standing_numbers, text_protocol::specs::Answers::figure_numbers, text_protocol::specs::Answers::rates_numbers, text_protocol::specs::Answers::ranges_numbers, text_protocol::specs::Answers::term_numbers, text_protocol::specs::Answers::last_numbers, text_protocol::specs::Answers::session_numbers, text_protocol::specs::Answers::external_numbers, paper::specs::Ranges::is_live, paper::specs::Ranges::last_day))]

ghost use Rattle.std.specs.Prelude.{◌≡◌, [], ◌∷◌, ◌++◌, ◌+◌, ◌*◌, ◌≤◌, length};
ghost use Rattle.text_bytes.specs.Bytes.{room};
ghost use Rattle.text_bytes.specs.Numbers.{spaced};
ghost use Rattle.text_protocol.specs.Answers.{near_number, standing_numbers, figure_numbers, rates_numbers, ranges_numbers};
ghost use Rattle.text_protocol.specs.Answers.{term_numbers, last_numbers, session_numbers, external_numbers};
ghost use Rattle.text_out.specs.Places.{next_bytes, next_signed_bytes};
ghost use Rattle.text_answer.specs.Sizes.{term_bytes};

use paper::{External, Limits, NearSeconds, Rate, Record, Session, Standing, Term};
use text_out::Text;

// S1 S2 S3
pub fn put_rates(out: &mut Text, rates: [Rate; Record::LEVELS])
    requires { length out.old + 3 * next_bytes ≤ room }
    ensures text { out.new ≡ out.old ++ spaced (rates_numbers rates) }
    ensures most { length out.new ≤ length out.old + 3 * next_bytes }
{
    out.put_next(rates[0].bp);
    out.put_next(rates[1].bp);
    out.put_next(rates[2].bp);
}

// LIVE DAY
fn put_standing(out: &mut Text, standing: Standing)
    requires { length out.old + 2 * next_bytes ≤ room }
    ensures text { out.new ≡ out.old ++ spaced (standing_numbers standing) }
    ensures most { length out.new ≤ length out.old + 2 * next_bytes }
{
    match standing {
        Standing::Admitted(day) => {
            out.put_next(0);
            out.put_next(day);
        }
        Standing::Live(day) => {
            out.put_next(1);
            out.put_next(day);
        }
    }
}

// ID LIVE DAY P1 P2 S TENTATIVE AGE
fn put_figures(out: &mut Text, r: Record)
    requires { length out.old + 8 * next_bytes ≤ room }
    ensures text { out.new ≡ out.old ++ spaced (figure_numbers r) }
    ensures most { length out.new ≤ length out.old + 8 * next_bytes }
{
    out.put_next(r.id);
    put_standing(out, r.standing);
    out.put_next(r.p1.units);
    out.put_next(r.p2.units);
    out.put_next(r.s);
    out.put_next(r.tentative.bp);
    out.put_next(r.tentative.age);
}

// UPPER1 UPPER2 UPPER3 LOWER1 LOWER2 LOWER3
fn put_ranges(out: &mut Text, ranges: [Limits; Record::LEVELS])
    requires { length out.old + 6 * next_bytes ≤ room }
    ensures text { out.new ≡ out.old ++ spaced (ranges_numbers ranges) }
    ensures most { length out.new ≤ length out.old + 6 * next_bytes }
{
    out.put_next(ranges[0].upper);
    out.put_next(ranges[1].upper);
    out.put_next(ranges[2].upper);
    out.put_next(ranges[0].lower);
    out.put_next(ranges[1].lower);
    out.put_next(ranges[2].lower);
}

// "near: the second, or -1"
fn put_near(out: &mut Text, near: Option<u64>)
    requires { length out.old + next_signed_bytes ≤ room }
    ensures text { out.new ≡ out.old ++ spaced (near_number near ∷ []) }
    ensures most { length out.new ≤ length out.old + next_signed_bytes }
{
    match near {
        Some(second) => out.put_next(second),
        None => out.put_next_signed(-1),
    }
}

// K RRCL RRCH BANDLOWER BANDUPPER NEARTOP NEARBOTTOM
pub fn put_term(out: &mut Text, term: Term, band: Limits, near: NearSeconds)
    requires { length out.old + term_bytes ≤ room }
    ensures text { out.new ≡ out.old ++ spaced (term_numbers term band near) }
    ensures most { length out.new ≤ length out.old + term_bytes }
{
    out.put_next(term.k);
    out.put_next_signed(term.low);
    out.put_next_signed(term.high);
    out.put_next(band.lower);
    out.put_next(band.upper);
    put_near(out, near.top);
    put_near(out, near.bottom);
}

// MOVESUPPER MOVESLOWER LASTSECOND
pub fn put_last(out: &mut Text, r: Record)
    requires { length out.old + 3 * next_bytes ≤ room }
    ensures text { out.new ≡ out.old ++ spaced (last_numbers r) }
    ensures most { length out.new ≤ length out.old + 3 * next_bytes }
{
    out.put_next(r.moves.upper);
    out.put_next(r.moves.lower);
    out.put_next(r.second);
}

// SESSION EVENINGMOVES: the main session has no evening moves.
pub fn put_session(out: &mut Text, session: Session)
    requires { length out.old + 2 * next_bytes ≤ room }
    ensures text { out.new ≡ out.old ++ spaced (session_numbers session) }
    ensures most { length out.new ≤ length out.old + 2 * next_bytes }
{
    match session {
        Session::Main => {
            out.put_next(0);
            out.put_next(0);
        }
        Session::Evening(made) => {
            out.put_next(1);
            out.put_next(made);
        }
    }
}

// EXTBID EXTASK: 0 is none.
pub fn put_external(out: &mut Text, external: External)
    requires { length out.old + 2 * next_bytes ≤ room }
    ensures text { out.new ≡ out.old ++ spaced (external_numbers external) }
    ensures most { length out.new ≤ length out.old + 2 * next_bytes }
{
    out.put_next(external.bid);
    out.put_next(external.ask);
}

// The figures of a record before those of its terms.
#[tactic(auto, using(text_out::specs::Appends::appending))]
pub fn put_levels(out: &mut Text, r: Record)
    requires { length out.old + 17 * next_bytes ≤ room }
    ensures text { out.new ≡ out.old ++ spaced (figure_numbers r ++ rates_numbers r.rates ++ ranges_numbers r.ranges) }
    ensures most { length out.new ≤ length out.old + 17 * next_bytes }
{
    put_figures(out, r);
    put_rates(out, r.rates);
    put_ranges(out, r.ranges);
}
