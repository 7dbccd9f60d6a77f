// Document 01, "What the desk covers": a record with a field outside its range, order, multiple of h or grid "counts as
// no such id". `sound` is judged whatever a lent table holds.
#![tactic(auto)]

ghost use Rattle.std.specs.Prelude.{◌≡◌, ◌&&◌, get_or};
ghost use Rattle.paper.specs.Lists.{all_three};
ghost use Rattle.paper.specs.Ranges.{is_live, last_day, is_rate, rate_at, grid_of, is_limit, valid_limits, no_limits};
ghost use Rattle.paper.specs.Ranges.{valid_near, valid_near_seconds, not_near, valid_session, valid_external, sound};
ghost use Rattle.paper.specs.Ranges.{valid_slots, sound_figures};

use inputs::{is_on_grid, is_rate, valid_figures, valid_id, valid_statics, valid_terms};
use paper::{
    External, Limit, Limits, NearSeconds, Price, Rate, Record, Session, Standing, Statics,
};

pub fn is_live(standing: Standing) -> bool
    ensures { result ≡ is_live standing }
{
    matches!(standing, Standing::Live(_))
}

// Of an admitted-only record the last day is the one given at admission.
pub fn last_day(standing: Standing) -> u64
    ensures { result ≡ last_day standing }
{
    match standing {
        Standing::Admitted(day) | Standing::Live(day) => day,
    }
}

fn valid_rates(rates: [Rate; Record::LEVELS]) -> bool
    ensures { result ≡ all_three (λ i. is_rate (rate_at rates i)) }
{
    rates.iter().all(|rate| is_rate(rate.bp))
}

// "limits on the grid 0..2·10^12 + 2·10^10"
fn is_limit(lot: u64, x: u64) -> bool
    ensures { result ≡ is_limit (grid_of lot) x }
{
    let made = Limit::new(x);
    match made {
        Some(limit) => is_on_grid(lot, limit.units),
        None => false,
    }
}

pub fn valid_limits(lot: u64, x: Limits) -> bool
    ensures { result ≡ valid_limits (grid_of lot) x }
{
    is_limit(lot, x.lower) & is_limit(lot, x.upper)
}

// The three ranges and the three bands, in one function, so that the lot is asked for its grid once (W-214).
fn valid_ranges_and_bands(
    lot: u64,
    ranges: [Limits; Record::LEVELS],
    bands: [Limits; Record::TERMS],
) -> bool
    ensures { result ≡ (all_three (λ i. valid_limits (grid_of lot) (get_or ranges i no_limits))
        && all_three (λ k. valid_limits (grid_of lot) (get_or bands k no_limits))) }
{
    ranges.iter().all(|range| valid_limits(lot, *range))
        & bands.iter().all(|band| valid_limits(lot, *band))
}

fn valid_near(near: Option<u64>) -> bool
    ensures { result ≡ valid_near near }
{
    match near {
        None => true,
        Some(second) => second <= Record::SECOND_LAST,
    }
}

pub fn valid_near_seconds(n: NearSeconds) -> bool
    ensures { result ≡ valid_near_seconds n }
{
    valid_near(n.top) & valid_near(n.bottom)
}

fn valid_three_near(near: [NearSeconds; Record::TERMS]) -> bool
    ensures { result ≡ all_three (λ k. valid_near_seconds (get_or near k not_near)) }
{
    near.iter().all(|n| valid_near_seconds(*n))
}

// W-210: "main, or evening with the evening moves made", which the evening maximum's range holds.
fn valid_session(session: Session) -> bool
    ensures { result ≡ valid_session session }
{
    match session {
        Session::Main => true,
        Session::Evening(made) => made <= Statics::EVENING_MOVES_MOST,
    }
}

// W-211: an outside bid or ask is a price, or 0 where there is none.
fn valid_external(x: External) -> bool
    ensures { result ≡ valid_external x }
{
    (x.bid <= Price::MOST_UNITS) & (x.ask <= Price::MOST_UNITS)
}

// The id, the statics and the figures that an admission gives too, with the age. Where the statics are damaged nothing
// is divided by their step.
fn sound_figures(r: Record) -> bool
    ensures { result ≡ sound_figures r }
{
    if !(valid_id(r.id) & valid_statics(r.statics)) {
        return false;
    }
    let day = last_day(r.standing);
    valid_figures(r.statics, day, r.p1.units, r.p2.units, r.s, r.tentative.bp)
        & (r.tentative.age <= Record::AGE_MOST)
}

// The limits, terms and near seconds are taken out of the record only where its figures are sound.
pub fn sound(r: Record) -> bool
    ensures { result ≡ sound r }
{
    if !sound_figures(r) {
        return false;
    }
    valid_rates(r.rates)
        & valid_ranges_and_bands(r.statics.lot, r.ranges, r.bands)
        & valid_terms(r.terms)
        & (r.moves.upper <= Record::MOVES_MOST)
        & (r.moves.lower <= Record::MOVES_MOST)
        & valid_three_near(r.near)
        & (r.second <= Record::SECOND_LAST)
        & valid_session(r.session)
        & valid_external(r.external)
}

// "1 to 512 slots": a call refuses any other table.
pub fn valid_slots(count: usize) -> bool
    ensures { result ≡ valid_slots count }
{
    (1 <= count) & (count <= Record::SLOTS_MOST)
}
