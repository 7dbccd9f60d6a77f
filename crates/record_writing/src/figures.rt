// What an evaluation makes of a record (7.1, 10.1, 11.2): the figures at its price with the ranges and the bands of
// them, and the record that it then writes. Other calls write theirs in `record_writing`.
ghost use Rattle.std.specs.Prelude.{◌≡◌};
ghost use Rattle.paper.specs.Lists.{three};
ghost use Rattle.paper.specs.Ranges.{rate_at};
ghost use Rattle.paper_desk.specs.Limits.{range_of};
ghost use Rattle.record_writing.specs.Evaluates.{RangesAsked, Evaluating, Makes, Evaluates};

use paper::{
    Day, Figures, Limits, Moves, NearSeconds, Price, Rate, Record, Session, Standing, Statics,
    Tentative,
};

fn ranges_of(st: Statics, p: Price, rates: [Rate; Record::LEVELS]) -> [Limits; Record::LEVELS]
    requires { RangesAsked p rates }
    ensures { result ≡ three (λ i. range_of st p.units (rate_at rates i)) }
{
    // A `map` would have to know of each rate that the price and it are in range, which only the three places say.
    [
        limits::range_of(st, p, rates[0]),
        limits::range_of(st, p, rates[1]),
        limits::range_of(st, p, rates[2]),
    ]
}

// What an evaluation works out, under the record's own names: its price, the figures of 7.1 and the limits. All else of
// a record it keeps, clears or takes from the day, so that a call that only asks need not write a record.
#[derive(Clone, Copy)]
pub struct Made {
    pub p1: Price,
    pub s: u64,
    pub tentative: Tentative,
    pub rates: [Rate; Record::LEVELS],
    pub ranges: [Limits; Record::LEVELS],
    pub bands: [Limits; Record::TERMS],
}

// What a day makes of a record at the evaluation P, with the figures at P.
pub fn made_at(r: Record, d: Day, p: Price, f: Figures) -> Made
    requires { Evaluating r d p f }
    ensures { Makes r d p.units result }
{
    let rates = f.rates;
    let ranges = ranges_of(r.statics, p, rates);
    let cleared = Moves { upper: 0, lower: 0 };
    let bands = limits::bands_of(r.statics, p, rates[0], cleared, d.terms);
    Made {
        p1: p,
        s: f.s,
        tentative: f.tentative,
        rates,
        ranges,
        bands,
    }
}

// "An evaluation clears both counts, all near seconds and the last quote second (to 0)." The security is then live.
pub fn evaluated(r: Record, d: Day, made: Made) -> Record
    ensures { Evaluates r d made result }
{
    let rates = made.rates;
    let ranges = made.ranges;
    let bands = made.bands;
    let terms = d.terms;
    Record {
        standing: Standing::Live(d.day),
        p1: made.p1,
        p2: r.p1,
        s: made.s,
        tentative: made.tentative,
        rates,
        ranges,
        terms,
        bands,
        moves: Moves { upper: 0, lower: 0 },
        near: [NearSeconds {
            top: None,
            bottom: None,
        }; Record::TERMS],
        second: 0,
        session: Session::Main, // W-210: "An evaluation puts the record back in main."
        ..r
    }
}
