// The calls of the evening's text, as docs/EVENING.md gives them: what the definitions (specs/) and the code share.
// The definitions say what a line of text means and what is printed, and every other crate of the evening is proved
// equal to them. What bytes, words and numbers are stands below, in text_bytes.
#![tactic(auto)]

ghost use Rattle.std.specs.Prelude.{◌≡◌};
ghost use Rattle.text_protocol.specs.Calls.{role_of};
ghost use Rattle.text_protocol.specs.Kinds.{kind_number, kind_at};

use paper::{Admission, Answer, AskedAbout, AskedDay, Interest, Row, Side, WorkedBand};
use paper_bonds::Bond;
use paper_reasons::Why;
use text_bytes::ROOM;

// The bytes of an answer at most.
pub const ANSWER_MOST: usize = 1_200;

// Where so many bytes of answers wait at most, one more has room behind them.
pub const WAITING_MOST: usize = ROOM - ANSWER_MOST;

// ---- the places of a call's numbers behind its word, by the names that specs/Names.antt gives them

// COUNT is how many there are; of an evaluation, an interest line and a bond, how many stand before the row figures,
// the key maturities and the cash flows. Whoever reads a number at one of these places is proved to read the one of the
// name, so that a wrong place is refused there.

// An admission: its statics stand behind its other numbers.
pub mod admit_place {
    use paper::Statics;

    pub const ID: usize = 0;

    pub const DAY: usize = 1;

    pub const P1: usize = 2;

    pub const P2: usize = 3;

    pub const S: usize = 4;

    pub const TENTATIVE: usize = 5;

    pub const STATICS: usize = 6;

    pub const COUNT: usize = STATICS + Statics::COUNT;
}

// An evaluation. RRCL and RRCH stand behind the days K of their term.
pub mod evaluate_place {
    pub const ID: usize = 0;

    pub const DAY: usize = 1;

    pub const B: usize = 2;

    pub const M: usize = 3;

    pub const K0: usize = 4;

    pub const RRCL0: usize = 5;

    pub const K1: usize = 7;

    pub const K2: usize = 10;

    pub const COUNT: usize = 13;
}

// A quote.
pub mod quote_place {
    pub const ID: usize = 0;

    pub const SECOND: usize = 1;

    pub const TERM: usize = 2;

    pub const BID: usize = 3;

    pub const ASK: usize = 4;

    pub const COUNT: usize = 5;
}

// A move.
pub mod move_place {
    pub const ID: usize = 0;

    pub const SIDE: usize = 1;

    pub const COUNT: usize = 2;
}

// A call about an id alone: a read, an opening, a withdrawal.
pub mod id_place {
    pub const ID: usize = 0;

    pub const COUNT: usize = 1;
}

// What the outside source sends: a bid and an ask together, and a notice of one side.
pub mod outside_place {
    pub const ID: usize = 0;

    pub const BIDBITS: usize = 1;

    pub const ASKBITS: usize = 2;

    pub const COUNT: usize = 3;
}

pub mod notice_place {
    pub const ID: usize = 0;

    pub const SIDE: usize = 1;

    pub const BITS: usize = 2;

    pub const COUNT: usize = 3;
}

// An interest line.
pub mod interest_place {
    pub const B: usize = 0;

    pub const YM: usize = 1;

    pub const YN: usize = 2;

    pub const A_UP: usize = 3;

    pub const A_DOWN: usize = 4;

    pub const Q: usize = 5;

    pub const H: usize = 6;

    pub const WAIT: usize = 7;

    pub const LIQ: usize = 8;

    pub const MM: usize = 9;

    pub const SEC: usize = 10;

    pub const XIR: usize = 11;

    pub const MONEY: usize = 12;

    pub const SECRATE: usize = 13;

    pub const COUNT: usize = 14;
}

// A bond. RRCL and RRCH stand behind the days K of their term, as in an evaluation.
pub mod bond_place {
    pub const M: usize = 0;

    pub const NET: usize = 1;

    pub const FACE: usize = 2;

    pub const ACCRUED: usize = 3;

    pub const REPO: usize = 4;

    pub const S: usize = 5;

    pub const TENTATIVE: usize = 6;

    pub const AGE: usize = 7;

    pub const K0: usize = 8;

    pub const RRCL0: usize = 9;

    pub const K1: usize = 11;

    pub const K2: usize = 14;

    pub const H: usize = 17;

    pub const Q: usize = 18;

    pub const WAIT: usize = 19;

    pub const RH1: usize = 20;

    pub const RH2: usize = 21;

    pub const RH3: usize = 22;

    pub const LIQ: usize = 23;

    pub const MIN1: usize = 24;

    pub const MIN2: usize = 25;

    pub const MIN3: usize = 26;

    pub const SMAX: usize = 27;

    pub const XPR: usize = 28;

    pub const PCHMAX: usize = 29;

    pub const PCLMAX: usize = 30;

    pub const MONITORING: usize = 31;

    pub const ISEWMA: usize = 32;

    pub const COUNT: usize = 33;
}

// The numbers that a line keeps: those of an evaluation and its row figures, with one figure more than a day may have.
pub const KEPT: usize = evaluate_place::COUNT + Row::ALL_NUMBERS_MOST + 1;

// The calls, in the order of their forms (specs/Names.antt). A line's word is looked up by it; once a line is read, `Ask`
// says what it asks for.
#[derive(Clone, Copy)]
pub enum CallKind {
    Admit,
    Evaluate,
    Quote,
    Move,
    Read,
    Open,
    Outside,
    Notice,
    Withdraw,
    Interest,
    Bond,
}

// The number of each, its place in the table of the calls' forms, counted from 1.
impl CallKind {
    pub const ADMIT: u64 = 1;

    pub const EVALUATE: u64 = 2;

    pub const QUOTE: u64 = 3;

    pub const MOVE: u64 = 4;

    pub const READ: u64 = 5;

    pub const OPEN: u64 = 6;

    pub const OUTSIDE: u64 = 7;

    pub const NOTICE: u64 = 8;

    pub const WITHDRAW: u64 = 9;

    pub const INTEREST: u64 = 10;

    pub const BOND: u64 = 11;

    // No call: a line with no word, and one that says no call. A call more leaves these two as they are.
    pub const BLANK: u64 = 100;

    pub const BAD: u64 = 101;

    // The number of a call.
    pub fn number(self) -> u64
        ensures { result ≡ kind_number self }
    {
        match self {
            CallKind::Admit => CallKind::ADMIT,
            CallKind::Evaluate => CallKind::EVALUATE,
            CallKind::Quote => CallKind::QUOTE,
            CallKind::Move => CallKind::MOVE,
            CallKind::Read => CallKind::READ,
            CallKind::Open => CallKind::OPEN,
            CallKind::Outside => CallKind::OUTSIDE,
            CallKind::Notice => CallKind::NOTICE,
            CallKind::Withdraw => CallKind::WITHDRAW,
            CallKind::Interest => CallKind::INTEREST,
            CallKind::Bond => CallKind::BOND,
        }
    }

    // The call of a number, where it is one's.
    #[tactic(auto, unfolding(crate::specs::Kinds::kind_at))]
    pub fn of(number: u64) -> Option<CallKind>
        ensures { result ≡ kind_at number }
    {
        match number {
            CallKind::ADMIT => Some(CallKind::Admit),
            CallKind::EVALUATE => Some(CallKind::Evaluate),
            CallKind::QUOTE => Some(CallKind::Quote),
            CallKind::MOVE => Some(CallKind::Move),
            CallKind::READ => Some(CallKind::Read),
            CallKind::OPEN => Some(CallKind::Open),
            CallKind::OUTSIDE => Some(CallKind::Outside),
            CallKind::NOTICE => Some(CallKind::Notice),
            CallKind::WITHDRAW => Some(CallKind::Withdraw),
            CallKind::INTEREST => Some(CallKind::Interest),
            CallKind::BOND => Some(CallKind::Bond),
            _ => None,
        }
    }
}

// What a word behind the call's is: one number, a pair of terms Ym/Yn, or neither.
#[derive(Clone, Copy)]
pub enum Item {
    One(i64),
    Two(i64, i64),
    Neither,
}

// A pair of terms Ym/Yn, and what an interest line answered for it.
#[derive(Clone, Copy)]
pub struct Pair {
    pub ym: u64,
    pub yn: u64,
    pub worked: WorkedBand,
}

// The pairs of the three latest interest lines that were accepted, the newest first.
#[derive(Clone, Copy)]
pub struct Kept {
    pub newest: Pair,
    pub middle: Pair,
    pub oldest: Pair,
}

// Which of the three terms of an evaluation or of a bond have a pair of terms Ym/Yn in place of their band.
#[derive(Clone, Copy, Default)]
pub struct Pairs {
    pub first: bool,
    pub second: bool,
    pub third: bool,
}

// A call of the desk: it admits a security, or asks something about the one with an id. The row figures of an
// evaluation are lent beside it. Neither is an error, so it is no `Result`.
#[derive(Clone, Copy)]
pub enum AskedCall {
    Admit(Admission),
    About(u64, AskedAbout),
}

// What an accepted call is to the text. All but five calls are alike to it, and a call more is `Other` where it is too:
//                   its answer shows      it sends                    it has reasons
//     Admission     its number alone      its statics                 no
//     Evaluation    the record            rates, bands and reasons    yes
//     Quote         two alerts            nothing                     no
//     Move          the record            the move                    no
//     Opening       the record            the session                 no
//     Other         the record            nothing                     no
#[derive(Clone, Copy)]
pub enum Role {
    Admission(Admission),
    Evaluation(u64, AskedDay),
    Quote,
    Move(Side),
    Opening,
    Other,
}

impl AskedCall {
    // Its role in the text.
    pub fn role(self) -> Role
        ensures { result ≡ role_of self }
    {
        match self {
            AskedCall::Admit(a) => Role::Admission(a),
            AskedCall::About(id, x) => match x {
                AskedAbout::Evaluate(d) => Role::Evaluation(id, d),
                AskedAbout::Quote(_) => Role::Quote,
                AskedAbout::Move(side) => Role::Move(Side::from(side)),
                AskedAbout::Open => Role::Opening,
                _ => Role::Other,
            },
        }
    }
}

// What a line asks for: nothing, no call, a call of the desk, or what is answered beside the table, the interest side
// or a bond. The figures behind its named numbers, an evaluation's rows, an interest line's key maturities or a bond's
// cash flows, are lent beside it.
#[derive(Clone, Copy)]
pub enum Ask {
    Nothing,
    NoCall,
    Call(AskedCall),
    Interest(Interest),
    Bond(Bond),
}

// What the desk says to a line. The answer counts only where the line is a call of the desk; it has a reason where one
// was asked for and the call has reasons.
#[derive(Clone, Copy)]
pub struct Performed {
    pub answer: Answer,
    pub why: Option<Why>,
}
