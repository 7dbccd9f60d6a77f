// Damaged and duplicate records, which no line of text can make: a table that is lent as it stands, with one damage to
// a slot, and then the calls on it.
#![tactic(auto)]

use paper::{
    External, GivenStatics, Limit, Limits, Moves, NearSeconds, Price, Rate, Record, Session,
    Standing, Statics, Tentative, Term,
};
use text_evening::Telling;

// Document 01's Z, with an evening of its own; a static that is not named here is at the least of its range.
fn statics() -> Statics {
    let mut given = GivenStatics::LEAST;
    given.lot = 10;
    given.h = 100;
    given.q = 300;
    given.aup = 1_000;
    given.adown = 500;
    given.wait = 5;
    given.rh1 = 2;
    given.rh2 = 5;
    given.rh3 = 8;
    given.liq = 50;
    given.min1 = 500;
    given.min2 = 700;
    given.min3 = 900;
    given.smax = 4_000;
    given.xpr = 200;
    given.shift = 25;
    given.pchmax = 2_000;
    given.pclmax = 2_000;
    given.w = 1_000;
    given.u = 60;
    given.monitoring = 1;
    given.ewma = 1;
    given.uevening = 60;
    given.autochange = 1;
    given.eveningmax = 10;
    inputs::statics_of(given)
}

// Case 1's security after its evaluation, with an id, in a session: a sound record, where the session is.
fn in_session(id: u64, session: Session) -> Record {
    Record {
        id,
        statics: statics(),
        standing: Standing::Live(4),
        p1: Price { units: 1_030_000 },
        p2: Price { units: 1_000_000 },
        s: 21_214,
        tentative: Tentative { bp: 700, age: 0 },
        rates: [Rate { bp: 800 }, Rate { bp: 1_200 }, Rate { bp: 1_500 }],
        ranges: [Limits {
            lower: 947_600,
            upper: 1_112_400,
        }; Record::LEVELS],
        terms: [Term {
            k: 0,
            low: 0,
            high: 0,
        }; Record::TERMS],
        bands: [Limits {
            lower: 988_800,
            upper: 1_071_200,
        }; Record::TERMS],
        moves: Moves { upper: 0, lower: 0 },
        near: [NearSeconds {
            top: None,
            bottom: None,
        }; Record::TERMS],
        second: 0,
        session,
        external: External { bid: 0, ask: 0 },
    }
}

fn sound(id: u64) -> Record {
    in_session(id, Session::Main)
}

// One static out of its range, order or step.
fn with_static(slot: usize, r: Record) -> Record {
    let mut statics = r.statics;
    match slot {
        0 => statics.lot = 0,
        1 => statics.h = 0,
        2 => statics.smax = 4_050,
        3 => statics.rh1 = 6,
        4 => statics.rh3 = 4,
        _ => statics.u = 3_601,
    }
    Record { statics, ..r }
}

// One figure out of its range, its step or the grid.
fn with_figure(slot: usize, r: Record) -> Record {
    match slot {
        6 => Record {
            p1: Price { units: 0 },
            ..r
        },
        7 => Record {
            p1: Price { units: 1_030_005 },
            ..r
        },
        8 => Record {
            p2: Price {
                units: Price::MOST_UNITS + 10,
            },
            ..r
        },
        9 => Record {
            s: Record::VOLATILITY_MOST + 1,
            ..r
        },
        10 => with_tentative(r, Tentative::MOST_BP + 100, 0),
        11 => with_tentative(r, 650, 0),
        12 => with_tentative(r, 700, Record::AGE_MOST + 1),
        13 => Record {
            moves: Moves {
                upper: 0,
                lower: Record::MOVES_MOST + 1,
            },
            ..r
        },
        _ => Record {
            second: Record::SECOND_LAST + 1,
            ..r
        },
    }
}

fn with_tentative(r: Record, bp: u64, age: u64) -> Record {
    Record {
        tentative: Tentative { bp, age },
        ..r
    }
}

fn with_ranges(r: Record, lower: u64, upper: u64) -> Record {
    let ranges = [Limits { lower, upper }; Record::LEVELS];
    Record { ranges, ..r }
}

fn with_terms(r: Record, k: u64, low: i64) -> Record {
    let terms = [Term { k, low, high: 0 }; Record::TERMS];
    Record { terms, ..r }
}

fn with_bands(r: Record, lower: u64, upper: u64) -> Record {
    let bands = [Limits { lower, upper }; Record::TERMS];
    Record { bands, ..r }
}

fn with_rate(r: Record, bp: u64) -> Record {
    let rates = [Rate { bp: 800 }, Rate { bp: 1_200 }, Rate { bp }];
    Record { rates, ..r }
}

fn with_near(r: Record, second: u64) -> Record {
    let near = [NearSeconds {
        top: None,
        bottom: Some(second),
    }; Record::TERMS];
    Record { near, ..r }
}

// One of the three rates, ranges, terms, bands or near seconds.
fn with_three(slot: usize, r: Record) -> Record {
    match slot {
        15 => with_rate(r, Rate::MOST_BP + 1),
        16 => with_ranges(r, 947_605, 1_112_400),
        17 => with_ranges(r, 947_600, Limit::MOST_UNITS + 10),
        18 => with_terms(r, Term::DAYS_MOST + 1, 0),
        19 => with_terms(r, 0, 1),
        20 => with_bands(r, 988_800, 1_071_205),
        _ => with_near(r, Record::SECOND_LAST + 1),
    }
}

// A sound record at the ends of its ranges, its bands crossed: what lies one past each of them stands in the slots
// before.
fn at_the_ends(id: u64, session: Session) -> Record {
    let bands = [Limits {
        lower: Limit::MOST_UNITS,
        upper: 0,
    }; Record::TERMS];
    Record {
        tentative: Tentative {
            bp: 4_000,
            age: Record::AGE_MOST,
        },
        moves: Moves {
            upper: Record::MOVES_MOST,
            lower: Record::MOVES_MOST,
        },
        bands,
        external: External {
            bid: Price::MOST_UNITS,
            ask: Price::MOST_UNITS,
        },
        second: Record::SECOND_LAST,
        ..in_session(id, session)
    }
}

// Slots 0 to 23 hold one damage each, under the ids 100 to 123; then duplicates of 700 and 701, an id past its range,
// and the ends, in the main session and in the evening.
fn record_of(slot: usize) -> Record {
    match slot {
        0..=5 => with_static(slot, sound(100 + slot as u64)),
        6..=14 => with_figure(slot, sound(100 + slot as u64)),
        15..=21 => with_three(slot, sound(100 + slot as u64)),
        22 => in_session(122, Session::Evening(Statics::EVENING_MOVES_MOST + 1)),
        23 => Record {
            external: External {
                bid: 0,
                ask: Price::MOST_UNITS + 1,
            },
            ..sound(123)
        },
        24 => with_figure(9, sound(700)),
        25 => sound(700),
        26 => sound(701),
        27 => at_the_ends(701, Session::Main),
        28 => sound(Record::ID_MOST + 1),
        29 => at_the_ends(702, Session::Main),
        _ => at_the_ends(703, Session::Evening(Statics::EVENING_MOVES_MOST)),
    }
}

fn table() -> [Record; Record::SLOTS_MOST] {
    let mut t = text_serve::fresh();
    for (slot, r) in t.iter_mut().take(31).enumerate() {
        *r = record_of(slot);
    }
    t
}

fn main(rt: HostRuntime) {
    text_serve::on(rt, table(), Telling::Answers);
}
