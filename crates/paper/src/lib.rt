// The values that document 01 speaks of, in the forms that it names. specs/ defines what is right, a file a clause;
// proofs/ proves it. Every number of the paper has one name here and one in specs/Numbers.antt. It uses no other crate.
#![tactic(auto)]

pub mod floats; // the format of a 64-bit float (W-211)

ghost use Rattle.std.specs.Prelude.{◌≡◌, ◌≤◌};
ghost use Rattle.paper.specs.Numbers.{rate_most, limit_most};
ghost use Rattle.paper.specs.Ranges.{price_made, rate_made, limit_made, side_of};
ghost use Rattle.paper.specs.Verdicts.{number_of, is_done};

// "10,000 = 100 per cent": one, in basis points.
pub const ONE_IN_BP: u64 = 10_000;

// One, in the ten-thousandths in which the weights and w are given.
pub const ONE_IN_TEN_THOUSANDTHS: u64 = 10_000;

// One, in the hundredths in which q, x_pr and shift are given.
pub const ONE_IN_HUNDREDTHS: u64 = 100;

// One, in the millionths in which a move and the volatility are given.
pub const ONE_IN_MILLIONTHS: u64 = 1_000_000;

// A basis point, in millionths.
pub const MILLIONTHS_IN_BP: u64 = 100;

// A basis point, in the unit of q·s, hundredths of millionths: the 10,000 of "10,000·t ≥ q·s".
pub const HUNDREDTHS_OF_MILLIONTHS_IN_BP: u64 = 10_000;

// A year of 365 days at 100 per cent, in days times basis points.
pub const YEAR_IN_DAY_BP: u64 = 3_650_000;

// One, in the hundredths of a per cent in which a net evaluation and the limits of a bond are given.
pub const ONE_IN_PER_CENT_HUNDREDTHS: u64 = 10_000;

// "g = 100 units for lot 1, 10 for 2..10, 1 for 11..100": the greatest lot of the second grid, and the first two grids,
// in units.
pub const LOT_TO_TEN: u64 = 10;

pub const GRID_OF_ONE: u64 = 100;

pub const GRID_TO_TEN: u64 = 10;

// A price, in ten-thousandths of a rouble. Price, Rate and Limit have a constructor each: a trait with their ends and
// their fields would be longer than the three bodies.
#[derive(Clone, Copy)]
pub struct Price {
    pub units: u64,
}

impl Price {
    pub const LEAST_UNITS: u64 = 1;

    pub const MOST_UNITS: u64 = 10_000_000_000;

    pub fn new(units: u64) -> Option<Price>
        ensures { result ≡ price_made units }
    {
        if (Price::LEAST_UNITS <= units) & (units <= Price::MOST_UNITS) {
            Some(Price { units })
        } else {
            None
        }
    }
}

// A rate, in basis points: 10,000 is 100 per cent.
#[derive(Clone, Copy, Default)]
pub struct Rate {
    pub bp: u64,
}

impl Rate {
    pub const MOST_BP: u64 = 10_000;

    pub fn new(bp: u64) -> Option<Rate>
        ensures { result ≡ rate_made bp }
    {
        if bp <= Rate::MOST_BP {
            Some(Rate { bp })
        } else {
            None
        }
    }

    // The rate of a number that a rule or a test has put in range already: its caller proves that it is.
    pub fn of(bp: u64) -> Rate
        requires { bp ≤ rate_most }
        ensures { result ≡ record { bp = bp } }
    {
        Rate { bp }
    }
}

// A limit of a range or a band, in ten-thousandths of a rouble, as a price is. Its range is its own: 0 is a limit, and
// fifty moves take one past every price.
#[derive(Clone, Copy)]
pub struct Limit {
    pub units: u64,
}

impl Limit {
    pub const MOST_UNITS: u64 = 2_020_000_000_000;

    pub fn new(units: u64) -> Option<Limit>
        ensures { result ≡ limit_made units }
    {
        if units <= Limit::MOST_UNITS {
            Some(Limit { units })
        } else {
            None
        }
    }

    // The limit of a number that a rule has put in range already: its caller proves that it is.
    pub fn of(units: u64) -> Limit
        requires { units ≤ limit_most }
        ensures { result ≡ record { units = units } }
    {
        Limit { units }
    }
}

// The tentative rate (7.1), in basis points, and the days since it changed. It is no `Rate`: no maximum holds it,
// and it runs as far as the multiplier and the volatility take it (W-208).
#[derive(Clone, Copy, Default)]
pub struct Tentative {
    pub bp: u64, // bp; of a share 0 to the least multiple of h at or above 100,000
    pub age: u64, // trading days, 0 to 250
}

impl Tentative {
    // "the most that q and s can give", before it is rounded up to a multiple of h.
    pub const MOST_BP: u64 = 100_000;
}

// What the volatility's rule takes, for shares and for interest alike: the weight where the move is above the
// volatility, the weight where it is not, and the multiplier.
#[derive(Clone, Copy)]
pub struct Model {
    pub aup: u64, // ten-thousandths, 0 to 10,000
    pub adown: u64, // ten-thousandths, 0 to 10,000
    pub q: u64, // hundredths, 100 to 1,000
}

// What a security is admitted with, by the names of document 01's table.
#[derive(Clone, Copy, Default)]
pub struct Statics {
    pub lot: u64, // pieces, 1 to 100
    pub h: u64, // bp, 1 to 1,000
    pub q: u64, // hundredths, 100 to 1,000
    pub aup: u64, // ten-thousandths, 0 to 10,000
    pub adown: u64, // ten-thousandths, 0 to 10,000
    pub wait: u64, // trading days, 1 to 250
    pub rh1: u64, // days, 1 to 5
    pub rh2: u64, // days, rh1 to 30
    pub rh3: u64, // days, rh2 to 30
    pub liq: u64, // bp, 0 to 500
    pub min1: u64, // bp, 0 to min2, a multiple of h
    pub min2: u64, // bp, min1 to min3, a multiple of h
    pub min3: u64, // bp, min2 to smax, a multiple of h
    pub smax: u64, // bp, min3 to 10,000, a multiple of h
    pub xpr: u64, // hundredths, 50 to 1,000
    pub shift: u64, // hundredths, 1 to 100
    pub pchmax: u64, // bp, 0 to 10,000
    pub pclmax: u64, // bp, 0 to 10,000
    pub w: u64, // ten-thousandths, 0 to 5,000
    pub u: u64, // seconds, 1 to 3,600
    pub monitoring: bool, // yes or no
    pub ewma: bool, // yes or no
    pub uevening: u64, // seconds, 1 to 3,600: u in the evening (W-210)
    pub autochange: bool, // yes or no
    pub eveningmax: u64, // evening moves, 0 to 10
    pub useexternal: bool, // yes or no (W-211)
}

impl Statics {
    pub const LOT_MOST: u64 = 100; // pieces

    pub const STEP_MOST: u64 = 1_000; // h, in bp

    pub const MULTIPLIER_LEAST: u64 = 100; // q, in hundredths

    pub const MULTIPLIER_MOST: u64 = 1_000; // q, in hundredths

    pub const WEIGHT_MOST: u64 = 10_000; // aup and adown, in ten-thousandths

    pub const WAIT_MOST: u64 = 250; // trading days

    pub const FIRST_DAYS_MOST: u64 = 5; // rh1

    pub const DAYS_MOST: u64 = 30; // rh2 and rh3

    pub const LIQUIDITY_MOST: u64 = 500; // liq, in bp

    pub const DIVISOR_LEAST: u64 = 50; // xpr, and xir of the interest side, in hundredths

    pub const DIVISOR_MOST: u64 = 1_000; // xpr, and xir of the interest side, in hundredths

    pub const SHIFT_MOST: u64 = 100; // hundredths

    pub const NEARNESS_MOST: u64 = 5_000; // w, in ten-thousandths

    pub const SECONDS_MOST: u64 = 3_600; // u and uevening

    pub const EVENING_MOVES_MOST: u64 = 10;

    // How many there are, and how many of them are yes or no.
    pub const COUNT: usize = 26;

    pub const FLAGS: usize = 4;
}

// The statics as they are given, in the order of the table (specs/Ranges.antt): each has the unit and the range of the
// field of `Statics` with its name, and yes is 1, no 0.
#[derive(Clone, Copy)]
pub struct GivenStatics {
    pub lot: u64,
    pub h: u64,
    pub q: u64,
    pub aup: u64,
    pub adown: u64,
    pub wait: u64,
    pub rh1: u64,
    pub rh2: u64,
    pub rh3: u64,
    pub liq: u64,
    pub min1: u64,
    pub min2: u64,
    pub min3: u64,
    pub smax: u64,
    pub xpr: u64,
    pub shift: u64,
    pub pchmax: u64,
    pub pclmax: u64,
    pub w: u64,
    pub u: u64,
    pub monitoring: u64,
    pub ewma: u64,
    pub uevening: u64,
    pub autochange: u64,
    pub eveningmax: u64,
    pub useexternal: u64,
}

impl GivenStatics {
    // Each at the least of its range.
    pub const LEAST: GivenStatics = GivenStatics {
        lot: 1,
        h: 1,
        q: Statics::MULTIPLIER_LEAST,
        aup: 0,
        adown: 0,
        wait: 1,
        rh1: 1,
        rh2: 1,
        rh3: 1,
        liq: 0,
        min1: 0,
        min2: 0,
        min3: 0,
        smax: 0,
        xpr: Statics::DIVISOR_LEAST,
        shift: 1,
        pchmax: 0,
        pclmax: 0,
        w: 0,
        u: 1,
        monitoring: 0,
        ewma: 0,
        uevening: 1,
        autochange: 0,
        eveningmax: 0,
        useexternal: 0,
    };

    // Each at the most of its range.
    pub const MOST: GivenStatics = GivenStatics {
        lot: Statics::LOT_MOST,
        h: Statics::STEP_MOST,
        q: Statics::MULTIPLIER_MOST,
        aup: Statics::WEIGHT_MOST,
        adown: Statics::WEIGHT_MOST,
        wait: Statics::WAIT_MOST,
        rh1: Statics::FIRST_DAYS_MOST,
        rh2: Statics::DAYS_MOST,
        rh3: Statics::DAYS_MOST,
        liq: Statics::LIQUIDITY_MOST,
        min1: Rate::MOST_BP,
        min2: Rate::MOST_BP,
        min3: Rate::MOST_BP,
        smax: Rate::MOST_BP,
        xpr: Statics::DIVISOR_MOST,
        shift: Statics::SHIFT_MOST,
        pchmax: Rate::MOST_BP,
        pclmax: Rate::MOST_BP,
        w: Statics::NEARNESS_MOST,
        u: Statics::SECONDS_MOST,
        monitoring: 1,
        ewma: 1,
        uevening: Statics::SECONDS_MOST,
        autochange: 1,
        eveningmax: Statics::EVENING_MOVES_MOST,
        useexternal: 1,
    };
}

// "A record has a standing: admitted only, or live with its day number." Either holds the last day. The words are the
// paper's, and neither is an error; so it is no `Result`.
#[derive(Clone, Copy)]
pub enum Standing {
    Admitted(u64), // a day number, 0 to 10^6
    Live(u64), // a day number, 0 to 10^6
}

// "A record carries its session: main, or evening with the evening moves made" (W-210). An `Option` of the moves would
// not say that none is the main session.
#[derive(Clone, Copy)]
pub enum Session {
    Main,
    Evening(u64), // evening moves, 0 to 10
}

// W-211, "our outside source sends a bid and an ask as 64-bit floats": in roubles.
#[derive(Clone, Copy)]
pub struct Outside {
    pub bid: f64,
    pub ask: f64,
}

// W-211, "a notice that is a bid, an ask, or a withdrawal".
#[derive(Clone, Copy)]
pub enum Notice {
    Bid(f64),
    Ask(f64),
    Withdrawal,
}

// The outside bid and ask that a record keeps; 0 is none.
#[derive(Clone, Copy, Default)]
pub struct External {
    pub bid: u64, // units, 0 to 10^10
    pub ask: u64, // units, 0 to 10^10
}

// W-209, "The shared rounding rule now says which way it goes": to the whole number that is not above, to the nearest
// with a tie up, to the one that is not below.
#[derive(Clone, Copy)]
pub enum Way {
    Down,
    HalfUp,
    Up,
}

// A lower and an upper limit: a level's range, or a term's band. A bond's are in hundredths of a per cent (W-206).
#[derive(Clone, Copy, Default)]
pub struct Limits {
    pub lower: u64, // of a share units, 0 to 2·10^12 + 2·10^10, on the grid
    pub upper: u64, // of a share units, 0 to 2·10^12 + 2·10^10, on the grid
}

#[derive(Clone, Copy, PartialEq, Eq)]
pub enum Side {
    Upper,
    Lower,
}

// "A move names a side, 0 upper or 1 lower." Another number is refused (6) before it is asked for its side.
impl From<u64> for Side {
    ghost from_gives = { λ number side. side ≡ side_of number };

    fn from(number: u64) -> Side {
        if number == 0 {
            Side::Upper
        } else {
            Side::Lower
        }
    }
}

// The near seconds of one term: of each side the second since which it is near, where it is.
#[derive(Clone, Copy, Default)]
pub struct NearSeconds {
    pub top: Option<u64>, // seconds of the day, 0 to 86,399
    pub bottom: Option<u64>, // seconds of the day, 0 to 86,399
}

// The moves of each side since the evaluation: the c of document 01.
#[derive(Clone, Copy, Default)]
pub struct Moves {
    pub upper: u64, // moves, 0 to 50
    pub lower: u64, // moves, 0 to 50
}

// A term's days k and its repo band RRcL ≤ RRcH.
#[derive(Clone, Copy, Default)]
pub struct Term {
    pub k: u64, // days, 0 to 30
    pub low: i64, // bp, -9,999 to high
    pub high: i64, // bp, low to 9,999
}

impl Term {
    pub const DAYS_MOST: u64 = 30;

    pub const REPO_LEAST: i64 = -9_999; // bp

    pub const REPO_MOST: i64 = 9_999; // bp
}

// What the limits of a bond take beside its statics, for one term (11.1).
#[derive(Clone, Copy)]
pub struct BondScale {
    pub carry: u64, // units: Carry, of the cash flows up to the term
    pub accrued: u64, // units, 0 to 10^10: the accrued interest
    pub face: u64, // units, 1 to 10^10: the face value
    pub repo: i64, // bp, -9,999 to 9,999: REPORate
}

// What an evaluation gives beside its price (7.1): the volatility, the tentative rate, and a rate a level.
#[derive(Clone, Copy)]
pub struct Figures {
    pub s: u64, // millionths, 0 to 1,000,000
    pub tentative: Tentative,
    pub rates: [Rate; Record::LEVELS],
}

// One security. The slot is empty where id is 0. Of the two latest evaluations p1 is the later. A level's rate and its
// range, and a term with its band and its near seconds, stand in arrays of their own: each call writes some of them
// whole, and what `specs/` says of a record goes by these fields.
#[derive(Clone, Copy)]
pub struct Record {
    pub id: u64, // 1 to 10^9, or 0
    pub statics: Statics,
    pub standing: Standing,
    pub p1: Price,
    pub p2: Price,
    pub s: u64, // millionths, 0 to 1,000,000
    pub tentative: Tentative,
    pub rates: [Rate; Record::LEVELS],
    pub ranges: [Limits; Record::LEVELS],
    pub terms: [Term; Record::TERMS],
    pub bands: [Limits; Record::TERMS],
    pub moves: Moves,
    pub near: [NearSeconds; Record::TERMS],
    pub second: u64, // seconds of the day, 0 to 86,399: the last accepted quote's
    pub session: Session,
    pub external: External,
}

impl Record {
    // A rate and a range a level; a repo band, a price band and near seconds a term.
    pub const LEVELS: usize = 3;

    pub const TERMS: usize = 3;

    pub const ID_MOST: u64 = 1_000_000_000;

    pub const DAY_MOST: u64 = 1_000_000;

    pub const VOLATILITY_MOST: u64 = 1_000_000; // millionths

    pub const AGE_MOST: u64 = 250; // trading days

    pub const MOVES_MOST: u64 = 50; // of one side

    pub const SECOND_LAST: u64 = 86_399; // of the day

    pub const SLOTS_MOST: usize = 512;
}

// What an admission gives.
#[derive(Clone, Copy)]
pub struct Admission {
    pub id: u64, // 1 to 10^9
    pub day: u64, // 0 to 10^6: the last day number
    pub p1: u64, // units, 1 to 10^10, on the grid: the later evaluation
    pub p2: u64, // units, 1 to 10^10, on the grid
    pub s: u64, // millionths, 0 to 1,000,000
    pub tentative: u64, // bp, 0 to the least multiple of h at or above 100,000, a multiple of h
    pub given: GivenStatics,
}

impl Admission {
    // How many numbers it has: six, and the statics.
    pub const NUMBERS: usize = 6 + Statics::COUNT;
}

// What a day gives beside its rows.
#[derive(Clone, Copy)]
pub struct Day {
    pub day: u64, // 0 to 10^6
    pub b: u64, // non-trading days between days i-2 and i, 0 to 30
    pub m: u64, // non-trading days ahead, 0 to 10
    pub terms: [Term; Record::TERMS],
}

impl Day {
    pub const BEHIND_MOST: u64 = 30; // b, in days

    pub const AHEAD_MOST: u64 = 10; // m, in days
}

// A row of the day, its numbers in range; only the repo rate may be negative. Close, bid or ask 0 is missing, volume 0
// is no trade.
#[derive(Clone, Copy)]
pub struct Row {
    pub t: u64, // days, 0 to 30
    pub central: u64, // ten-thousandths of a rouble, 1 to 10^7
    pub repo: i64, // bp, -9,999 to 9,999
    pub close: u64, // ten-thousandths of its currency, 0 to 10^10
    pub bid: u64, // ten-thousandths of its currency, 0 to 10^10
    pub ask: u64, // ten-thousandths of its currency, 0 to 10^10
    pub volume: u64, // thousands of its currency, 0 to 10^8
}

impl Row {
    pub const NUMBERS: usize = 7;

    pub const ALL_NUMBERS_MOST: usize = 112;

    pub const TERM_MOST: i64 = 30; // t, in days

    pub const CENTRAL_MOST: i64 = 10_000_000; // ten-thousandths of a rouble

    pub const VOLUME_MOST: u64 = 100_000_000; // thousands

    pub const ROUBLE: u64 = 10_000; // its central rate, in ten-thousandths
}

// A row after places (a) and (b): its prices in roubles today, and its weight.
#[derive(Clone, Copy)]
pub struct Roubles {
    pub weight: u64, // thousands of roubles, 0 to 10^8
    pub close: u64, // units, 0 to 10^10
    pub bid: u64, // units, 0 to 10^10
    pub ask: u64, // units, 0 to 10^10
}

// A quote of one term; bid or ask 0 is missing.
#[derive(Clone, Copy)]
pub struct Quote {
    pub second: u64, // seconds of the day, 0 to 86,399
    pub term: u64, // 0 to 2
    pub bid: u64, // units, 0 to 10^11
    pub ask: u64, // units, 0 to 10^11
}

impl Quote {
    pub const TERM_LAST: u64 = 2;

    pub const PRICE_MOST: u64 = 100_000_000_000; // units
}

// "Numbers a member may see", by name; `number` gives the number: 0 to 13 are document 01's, later ones document 02's.
#[derive(Clone, Copy, PartialEq, Eq)]
pub enum Verdict {
    Done,
    NoSuchId,
    AlreadyAdmitted,
    NoEmptySlot,
    AdmissionOutOfRange,
    DayNotAfter,
    OutOfRange,
    PriceOutOfRange,
    MoveTooLarge,
    BandCrossed,
    NotLive,
    NotMonitored,
    MovesUsedUp,
    SecondEarlier,
    NotAscending,
    BadLine,
    RowCrossed,
    NoFaceValue,
    NoEveningMove,
    OpenedTwice,
    BadFloat,
    CutShort,
    WrongLength,
    FieldOutOfRange,
    NoRoom,
}

impl Verdict {
    pub fn number(self) -> u64
        ensures { result ≡ number_of self }
    {
        self as u64
    }

    pub fn is_done(self) -> bool
        ensures { result ≡ is_done self }
    {
        self == Verdict::Done
    }
}

// What a call answers. A refusal has its verdict and every figure 0, flags no, nothing near, admitted only: `left` of
// `Demand1` (demands/specs) speaks of those zeros, so it is no `Result`.
#[derive(Clone, Copy)]
pub struct Answer {
    pub verdict: Verdict,
    pub rec: Record,
    pub top: bool,
    pub bottom: bool,
}

// ---- the interest side (W-201)

// A key maturity as an evening gives it: its days, the repo rate of this evening and of the two before, the repo index,
// and the volatility and the tentative rate of the evening before.
#[derive(Clone, Copy)]
pub struct Maturity {
    pub t: u64, // days, 0 to 365
    pub r: i64, // bp, -9,999 to 9,999
    pub r1: i64, // bp, -9,999 to 9,999
    pub r2: i64, // bp, -9,999 to 9,999
    pub index: i64, // bp, -9,999 to 9,999
    pub volatility: u64, // bp, 0 to 19,998
    pub tentative: Tentative, // bp 0 to 200,979, age 0 to 250
}

impl Maturity {
    pub const NUMBERS: usize = 8;

    pub const ALL_NUMBERS_MOST: usize = 64;

    pub const COUNT_MOST: usize = 8;

    pub const DAYS_MOST: u64 = 365; // of a key maturity, or of a term of a pair

    pub const VOLATILITY_MOST: u64 = 19_998; // bp

    pub const TENTATIVE_MOST: u64 = 200_979; // bp
}

// What an evening gives beside its key maturities: the holidays b, the pair of terms Ym/Yn, the statics, and the
// rollover rates of money and of the security.
#[derive(Clone, Copy)]
pub struct Interest {
    pub b: u64, // days, 0 to 30
    pub ym: u64, // days, 0 to 365, less than yn
    pub yn: u64, // days, 0 to 365
    pub model: Model,
    pub h: u64, // bp, 1 to 1,000
    pub wait: u64, // trading days, 1 to 250
    pub liq: u64, // bp, 0 to 9,999
    pub mm: u64, // bp, 0 to 9,999: MMΔ
    pub sec: u64, // bp, 0 to 9,999: SECΔ
    pub xir: u64, // hundredths, 50 to 1,000
    pub money: i64, // bp, -9,999 to 9,999
    pub secrate: i64, // bp, -9,999 to 9,999
}

impl Interest {
    pub const MINIMUM_MOST: u64 = 9_999; // liq, mm and sec, in bp
}

// The figures of a key maturity: the change of its rate, the volatility, the tentative rate, and the upward and the
// downward estimate.
#[derive(Clone, Copy)]
pub struct MaturityFigures {
    pub change: u64, // bp, 0 to 19,998
    pub volatility: u64, // bp, 0 to 19,998
    pub tentative: Tentative, // bp 0 to 200,979, age 0 to 250
    pub up: u64, // bp, 0 to 211,977
    pub down: u64, // bp, 0 to 211,977
}

// A pair of terms worked out: the limits of its repo band, where the verdict is done. The limits stand beside the
// verdict, in no `Result`: a refusal has both 0, as `interest_zero` of `Demand1Beside` (demands/specs) says.
#[derive(Clone, Copy)]
pub struct WorkedBand {
    pub verdict: Verdict,
    pub lower: i64, // bp
    pub upper: i64, // bp
}

// What the interest side answers: the pair, how many key maturities there are, and the figures of each; zeros past the
// last. A refusal has its verdict and every figure 0: `interest_zero` of `Demand1Beside` (demands/specs) speaks of
// those zeros, so it is no `Result`.
#[derive(Clone, Copy)]
pub struct InterestAnswer {
    pub pair: WorkedBand,
    pub count: u64,
    pub figures: [MaturityFigures; Maturity::COUNT_MOST],
}

// A repo band as two numbers give it.
#[derive(Clone, Copy)]
pub struct RepoLimits {
    pub low: i64, // bp
    pub high: i64, // bp
}

// Where a term's repo band comes from: it stands as given, or a pair of terms was worked out. Neither is an error, so
// it is no `Result`.
#[derive(Clone, Copy)]
pub enum RepoBand {
    AsGiven(RepoLimits),
    WorkedOut(WorkedBand),
}

#[derive(Clone, Copy)]
pub struct AskedTerm {
    pub k: u64, // days, 0 to 30
    pub band: RepoBand,
}

// A day as it is asked for, with either kind of band in each of its terms; its numbers are those of `Day`. Each term
// has a name, since it has words of its own in a line (K0, K1, K2: `asked_of` of text_protocol).
#[derive(Clone, Copy)]
pub struct AskedDay {
    pub day: u64,
    pub b: u64,
    pub m: u64,
    pub first: AskedTerm,
    pub second: AskedTerm,
    pub third: AskedTerm,
}

// What is asked about one security. The row figures of an evaluation are lent beside it.
#[derive(Clone, Copy)]
pub enum AskedAbout {
    Evaluate(AskedDay),
    Quote(Quote),
    Move(u64), // the side
    Read,
    Open,
    Receive(Outside),
    Notify(Notice),
}
