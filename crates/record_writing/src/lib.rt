// What each call but an evaluation writes (`figures` has that): the record after an admission, the record after a move,
// and the record that a quote, an opening of the evening or a receipt of outside prices leaves (`watching`).
#![tactic(auto)]

pub mod figures; // the record that an evaluation writes

ghost use Rattle.std.specs.Prelude.{◌≡◌, true, ◌<◌, get_or};
ghost use Rattle.paper.specs.Lists.{three};
ghost use Rattle.paper.specs.Numbers.{moves_most};
ghost use Rattle.paper.specs.Ranges.{valid_quote, sound, no_limits, not_near};
ghost use Rattle.paper_desk.specs.Limits.{count_of, range_moved_by, band_moved};
ghost use Rattle.paper_desk.specs.Alerts.{near_cleared};
ghost use Rattle.paper_desk.specs.Desk.{admitted, near_on, moved, watching};
ghost use Rattle.record_writing.specs.Needs.{Admitting, Shiftable};

use paper::{
    Admission, External, Limits, Moves, NearSeconds, Price, Quote, Record, Session, Side, Standing,
    Tentative, Term,
};

// ---- an admission

// "The three rates start at their minima; age, limits, counts, terms and the last quote second at 0, with no near
// seconds."
pub fn admitted(a: Admission, p1: Price, p2: Price) -> Record
    requires { Admitting a p1 p2 }
    ensures { result ≡ admitted a }
{
    let statics = inputs::statics_of(a.given);
    let rates = rates_level::minima(statics);
    Record {
        id: a.id,
        statics,
        standing: Standing::Admitted(a.day),
        p1,
        p2,
        s: a.s,
        tentative: Tentative {
            bp: a.tentative,
            age: 0,
        },
        rates,
        ranges: [Limits { lower: 0, upper: 0 }; Record::LEVELS],
        terms: [Term {
            k: 0,
            low: 0,
            high: 0,
        }; Record::TERMS],
        bands: [Limits { lower: 0, upper: 0 }; Record::TERMS],
        moves: Moves { upper: 0, lower: 0 },
        near: [NearSeconds {
            top: None,
            bottom: None,
        }; Record::TERMS],
        second: 0,
        session: Session::Main,
        external: External { bid: 0, ask: 0 },
    }
}

// ---- a quote

// The near seconds of the quote's term after it.
pub fn near_on(r: Record, q: Quote) -> NearSeconds
    requires r_value { sound r ≡ true }
    requires q_value { valid_quote q ≡ true }
    ensures { result ≡ near_on r q }
{
    let term = q.term as usize;
    let band = r.bands[term];
    let near = r.near[term];
    let above = alerts::is_near(Side::Upper, r.statics.w, band, q.bid);
    let below = alerts::is_near(Side::Lower, r.statics.w, band, q.ask);
    NearSeconds {
        top: alerts::near_after(above, near.top, q.second),
        bottom: alerts::near_after(below, near.bottom, q.second),
    }
}

// ---- a move

fn ranges_moved(
    side: Side,
    delta: u64,
    ranges: [Limits; Record::LEVELS],
) -> [Limits; Record::LEVELS]
    requires { Shiftable delta ranges }
    ensures { result ≡ three (λ i. range_moved_by side delta (get_or ranges i no_limits)) }
{
    // A `map` would have to know of each range that it can be shifted, which only the three places say.
    [
        limits::range_moved(side, delta, ranges[0]),
        limits::range_moved(side, delta, ranges[1]),
        limits::range_moved(side, delta, ranges[2]),
    ]
}

fn bands_moved(
    side: Side,
    fresh: [Limits; Record::TERMS],
    bands: [Limits; Record::TERMS],
) -> [Limits; Record::TERMS]
    ensures { result ≡ three (λ k. band_moved side (get_or fresh k no_limits) (get_or bands k no_limits)) }
{
    [
        limits::band_moved(side, fresh[0], bands[0]),
        limits::band_moved(side, fresh[1], bands[1]),
        limits::band_moved(side, fresh[2], bands[2]),
    ]
}

fn near_cleared(side: Side, near: [NearSeconds; Record::TERMS]) -> [NearSeconds; Record::TERMS]
    ensures { result ≡ three (λ k. near_cleared side (get_or near k not_near)) }
{
    near.map(|n| alerts::near_cleared(side, n))
}

// "It adds one to c, remakes that side's three band limits, and shifts its three range limits by delta. It clears that
// side's near seconds in all terms." W-210: in the evening it is one of the evening moves made.
pub fn moved(r: Record, side: Side) -> Record
    requires r_value { sound r ≡ true }
    requires moves_bound { count_of side r.moves < moves_most }
    ensures { result ≡ moved r side }
{
    let s1 = r.rates[0];
    let moves = limits::one_more(side, r.moves);
    let fresh = limits::bands_of(r.statics, r.p1, s1, moves, r.terms);
    let ranges = ranges_moved(side, limits::delta(r.statics, r.p1, s1), r.ranges);
    let bands = bands_moved(side, fresh, r.bands);
    let near = near_cleared(side, r.near);
    Record {
        ranges,
        bands,
        moves,
        near,
        session: alerts::session::session_moved(r.session),
        ..r
    }
}

// ---- a quote, an opening of the evening and a receipt of outside prices

// The record with other near seconds, another last quote second, another session and another outside pair, and the rest
// of it as it was.
pub fn watching(
    r: Record,
    near: [NearSeconds; Record::TERMS],
    second: u64,
    session: Session,
    external: External,
) -> Record
    ensures { result ≡ watching r near second session external }
{
    Record {
        near,
        second,
        session,
        external,
        ..r
    }
}
