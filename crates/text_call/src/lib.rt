// What a call is given, from the numbers of its line. Each number is read at the place of its name
// (text_protocol/specs/Names.antt). A float is made of the 64 bits that a number has.
#![tactic(auto)]

pub mod kept; // what is kept of the interest lines

ghost use Rattle.std.specs.Prelude.{◌≡◌, List, ◌≤◌, ℤ, pos, drop, get_or};
ghost use Rattle.text_protocol.specs.Calls.{admission_of, quote_of, bits_of, float_of, outside_of, interest_of};
ghost use Rattle.text_protocol.specs.Calls.{band_of, asked_of, notice_call, desk_call, call_asked};
ghost use Rattle.text_call.specs.Terms.{term_at_place};
ghost use Rattle.text_protocol.specs.Names.{evaluate_count};

use crate::kept::found;
use inputs::{given_of, number_at};
use paper::{
    Admission, AskedAbout, AskedDay, AskedTerm, Interest, Model, Notice, Outside, Quote, RepoBand,
    RepoLimits,
};
use text_protocol::{
    AskedCall, CallKind, Kept, Pairs, admit_place, evaluate_place, id_place, interest_place,
    move_place, notice_place, outside_place, quote_place,
};

// The number whose 64 bits are all 1: those of -1.
const ALL_ONES: u64 = 18_446_744_073_709_551_615;

// The bit of a float's sign; and the bits of the infinity, above which, the sign aside, none are a number's.
const SIGN_BIT: u64 = 9_223_372_036_854_775_808;

const INFINITY_BITS: u64 = 9_218_868_437_227_405_312;

// The number at a place, with its sign; 0 where there is none. `inputs::number_at` reads one that has none.
pub fn signed_at(zs: &[i64], i: usize) -> i64
    ensures { result ≡ get_or zs.now i (pos 0) }
{
    zs.get(i).copied().unwrap_or(0)
}

// ---- an admission

pub fn admission_of(zs: &[i64]) -> Admission
    ensures { result ≡ admission_of zs.now }
{
    Admission {
        id: number_at(zs, admit_place::ID),
        day: number_at(zs, admit_place::DAY),
        p1: number_at(zs, admit_place::P1),
        p2: number_at(zs, admit_place::P2),
        s: number_at(zs, admit_place::S),
        tentative: number_at(zs, admit_place::TENTATIVE),
        given: given_of(figures(zs, admit_place::STATICS)),
    }
}

// ---- an evaluation

// Where a pair stands in a term, the two numbers are Ym and Yn, and the band is the newest kept answer of that pair;
// else they are the band.
fn band_of(k: Kept, pair: bool, low: i64, high: i64) -> RepoBand
    ensures { result ≡ band_of k pair low high }
{
    if pair {
        return RepoBand::WorkedOut(found(k, exact::unsigned(low), exact::unsigned(high)));
    }
    RepoBand::AsGiven(RepoLimits { low, high })
}

// The term whose days stand at a place, and its band behind them: of an evaluation or of a bond.
pub fn term_of(k: Kept, pair: bool, zs: &[i64], at: usize) -> AskedTerm
    requires { at ≤ 14 }
    ensures { result ≡ term_at_place k pair zs.now at }
{
    AskedTerm {
        k: number_at(zs, at),
        band: band_of(k, pair, signed_at(zs, at + 1), signed_at(zs, at + 2)),
    }
}

// The day that an evaluation asks for.
pub fn asked_of(k: Kept, p: Pairs, zs: &[i64]) -> AskedDay
    ensures { result ≡ asked_of k zs.now p }
{
    AskedDay {
        day: number_at(zs, evaluate_place::DAY),
        b: number_at(zs, evaluate_place::B),
        m: number_at(zs, evaluate_place::M),
        first: term_of(k, p.first, zs, evaluate_place::K0),
        second: term_of(k, p.second, zs, evaluate_place::K1),
        third: term_of(k, p.third, zs, evaluate_place::K2),
    }
}

// ---- a quote

pub fn quote_of(zs: &[i64]) -> Quote
    ensures { result ≡ quote_of zs.now }
{
    Quote {
        second: number_at(zs, quote_place::SECOND),
        term: number_at(zs, quote_place::TERM),
        bid: number_at(zs, quote_place::BID),
        ask: number_at(zs, quote_place::ASK),
    }
}

// ---- what the outside source sends

// The 64 bits of a number, as a number without a sign.
fn bits_of(z: i64) -> u64
    ensures { result ≡ bits_of z }
{
    let size = exact::magnitude(z);
    if z < 0 {
        return ALL_ONES - size;
    }
    size
}

// The float of the 64 bits of a number. Bits that are no number's are a NaN, and 0 / 0 is one.
fn float_of(z: i64) -> f64
    ensures { result ≡ float_of z }
{
    let bits = bits_of(z);
    if bits % SIGN_BIT > INFINITY_BITS {
        let zero = 0.0;
        return zero / zero;
    }
    f64::from_bits(bits)
}

// The float whose bits are those of the number at a place.
fn float_at(zs: &[i64], i: usize) -> f64
    ensures { result ≡ float_of (get_or zs.now i (pos 0)) }
{
    float_of(signed_at(zs, i))
}

fn outside_of(zs: &[i64]) -> Outside
    ensures { result ≡ outside_of zs.now }
{
    Outside {
        bid: float_at(zs, outside_place::BIDBITS),
        ask: float_at(zs, outside_place::ASKBITS),
    }
}

// ---- the interest side

pub fn interest_of(zs: &[i64]) -> Interest
    ensures { result ≡ interest_of zs.now }
{
    Interest {
        b: number_at(zs, interest_place::B),
        ym: number_at(zs, interest_place::YM),
        yn: number_at(zs, interest_place::YN),
        model: Model {
            aup: number_at(zs, interest_place::A_UP),
            adown: number_at(zs, interest_place::A_DOWN),
            q: number_at(zs, interest_place::Q),
        },
        h: number_at(zs, interest_place::H),
        wait: number_at(zs, interest_place::WAIT),
        liq: number_at(zs, interest_place::LIQ),
        mm: number_at(zs, interest_place::MM),
        sec: number_at(zs, interest_place::SEC),
        xir: number_at(zs, interest_place::XIR),
        money: signed_at(zs, interest_place::MONEY),
        secrate: signed_at(zs, interest_place::SECRATE),
    }
}

// ---- the figures behind the named numbers

pub fn figures(zs: &[i64], from: usize) -> &[i64]
    ensures { result.now ≡ drop from zs.now }
{
    let start = from.min(zs.len());
    &zs[start..]
}

// ---- the calls of the desk

// A notice of a side: 0 is a bid, 1 an ask, and another side is a move of that side, which no move has.
fn notice_of(id: u64, side: u64, x: f64) -> AskedCall
    ensures { (rows : List ℤ) → call_asked result rows ≡ notice_call id side x }
{
    if side == 0 {
        return AskedCall::About(id, AskedAbout::Notify(Notice::Bid(x)));
    }
    if side == 1 {
        return AskedCall::About(id, AskedAbout::Notify(Notice::Ask(x)));
    }
    AskedCall::About(id, AskedAbout::Move(side))
}

// The call of the desk that a line of a kind is, with what it is given. A withdrawal stands for all that is none: an
// interest line and a bond, which are not asked for here, and a number that is no call's.
pub fn call_of(zs: &[i64], kind: u64, p: Pairs, k: Kept) -> AskedCall
    ensures { call_asked result (drop evaluate_count zs.now) ≡ desk_call k kind zs.now p }
{
    match CallKind::of(kind).unwrap_or(CallKind::Withdraw) {
        CallKind::Admit => AskedCall::Admit(admission_of(zs)),
        CallKind::Evaluate => {
            let id = number_at(zs, evaluate_place::ID);
            AskedCall::About(id, AskedAbout::Evaluate(asked_of(k, p, zs)))
        }
        CallKind::Quote => {
            let id = number_at(zs, quote_place::ID);
            AskedCall::About(id, AskedAbout::Quote(quote_of(zs)))
        }
        CallKind::Move => {
            let id = number_at(zs, move_place::ID);
            AskedCall::About(id, AskedAbout::Move(number_at(zs, move_place::SIDE)))
        }
        CallKind::Read => AskedCall::About(number_at(zs, id_place::ID), AskedAbout::Read),
        CallKind::Open => AskedCall::About(number_at(zs, id_place::ID), AskedAbout::Open),
        CallKind::Outside => {
            let id = number_at(zs, outside_place::ID);
            AskedCall::About(id, AskedAbout::Receive(outside_of(zs)))
        }
        CallKind::Notice => {
            let id = number_at(zs, notice_place::ID);
            let side = number_at(zs, notice_place::SIDE);
            notice_of(id, side, float_at(zs, notice_place::BITS))
        }
        CallKind::Withdraw | CallKind::Interest | CallKind::Bond => {
            let id = number_at(zs, id_place::ID);
            AskedCall::About(id, AskedAbout::Notify(Notice::Withdrawal))
        }
    }
}
