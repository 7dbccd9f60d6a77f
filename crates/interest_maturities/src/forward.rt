// Between the key maturities (14.6), and the rouble repo band of a pair of terms (16.2), by value. A rate may be below
// zero: it comes lifted, and a limit is counted from a base, so that every sum here is one of natural numbers.
ghost use Rattle.std.specs.Prelude.{◌≡◌, ◌-◌, ◌*◌, ◌^◌, ◌≤◌, ◌<◌, pos};
ghost use Rattle.std.proofs.Math.IntN.{sub_ℕ};
ghost use Rattle.paper_interest.specs.Interest.{is_held, limit_from};
ghost use Rattle.interest_maturities.specs.Points.{figure_most, PointRange, rate_of, Line, linear, point_between};
ghost use Rattle.interest_maturities.specs.Pair.{PairRange, base, Margin, Risen, band_worked, band_held};

use crate::repo::LIFT;
use paper::{Interest, ONE_IN_HUNDREDTHS, RepoLimits};

// ---- between the key maturities (14.6)

// The figures so many days ahead: the rate, lifted, and the upward and the downward estimate.
#[derive(Clone, Copy)]
pub struct Point {
    pub t: u64,
    pub rate: u64,
    pub up: u64,
    pub down: u64,
}

// A figure y days ahead, between f days ahead t and g days ahead u: rounded once, half up. A lift of both is a lift of
// the figure.
fn linear(t: u64, f: u64, u: u64, g: u64, y: u64) -> u64
    requires { Line t f u g y }
    ensures { result ≡ linear t f u g y }
{
    exact::half_up(f * (u - y) + g * (y - t), u - t)
}

// The rate and both estimates y days ahead, each between those of two points.
pub fn between(a: Point, b: Point, y: u64) -> Point
    requires point_range { PointRange a }
    requires point_range_2 { PointRange b }
    requires t_lt_y { (a.t < y) × (y ≤ b.t) }
    ensures { result ≡ point_between a b y }
{
    Point {
        t: y,
        rate: linear(a.t, a.rate, b.t, b.rate, y),
        up: linear(a.t, a.up, b.t, b.up, y),
        down: linear(a.t, a.down, b.t, b.down, y),
    }
}

// ---- the rouble repo band of a pair of terms (16.2)

// What a limit is counted from: above the size of every limit. It is no number of the paper.
const BASE: u64 = 1_000_000_000;

// n - from, of either sign.
fn lowered(n: u64, from: u64) -> i64
    requires { (n < 2 ^ 62) × (from < 2 ^ 62) }
    ensures { result ≡ sub_ℕ n from }
{
    n as i64 - from as i64
}

// A pair of terms Ym/Yn of an evening, with the figures m at Ym and n at Yn.
#[derive(Clone, Copy)]
struct Pair {
    i: Interest,
    m: Point,
    n: Point,
    ghost pair_range: { PairRange i },
    ghost point_range: { PointRange m },
    ghost point_range_2: { PointRange n },
}

impl Pair {
    // The forward rate times Yn - Ym, counted from the base: R(Yn)·Yn - R(Ym)·Ym.
    fn risen(self) -> u64
        ensures { Risen self.i self.m self.n result }
    {
        let i = self.i;
        self.n.rate * i.yn + (BASE - LIFT) * (i.yn - i.ym) - self.m.rate * i.ym
    }

    // 100·Δ(Yn)/x_IR, over the same denominator (Yn - Ym)·x_IR.
    fn margin(self, estimate: u64) -> u64
        requires { estimate ≤ figure_most }
        ensures { Margin self.i estimate result }
    {
        ONE_IN_HUNDREDTHS * (self.i.yn - self.i.ym) * estimate
    }

    // "each band limit round once, half up to a bp"
    fn limit_from(self, n: u64) -> i64
        requires { n < 2 ^ 62 }
        ensures { result ≡ limit_from self.i (sub_ℕ n (base * ((self.i.yn - self.i.ym) * self.i.xir))) }
    {
        let i = self.i;
        lowered(exact::half_up(n, (i.yn - i.ym) * i.xir), BASE)
    }

    // Both limits before they are held: the forward rate less the downward margin, and with the upward one.
    fn worked(self) -> RepoLimits
        ensures { result ≡ band_worked self.i (rate_of self.m) (rate_of self.n) (pos self.n.down) (pos self.n.up) }
    {
        let forward = self.i.xir * self.risen();
        RepoLimits {
            low: self.limit_from(forward - self.margin(self.n.down)),
            high: self.limit_from(forward + self.margin(self.n.up)),
        }
    }

    // "Y0/Y1 is held by the money and security rollover rates."
    #[tactic(auto, unfolding(paper_interest::specs::Interest::is_held))]
    fn is_held(self) -> bool
        ensures { result ≡ is_held self.i }
    {
        self.i.ym == 0 && self.i.yn == 1
    }

    fn band(self) -> RepoLimits
        ensures { result ≡ band_held self.i (rate_of self.m) (rate_of self.n) (pos self.n.down) (pos self.n.up) }
    {
        let band = self.worked();
        if self.is_held() {
            RepoLimits {
                low: band.low.max(self.i.secrate),
                high: band.high.min(self.i.money),
            }
        } else {
            band
        }
    }
}

// The repo band of the pair, from the figures at Ym and at Yn.
pub fn band_of(i: Interest, m: Point, n: Point) -> RepoLimits
    requires pair_range { PairRange i }
    requires point_range { PointRange m }
    requires point_range_2 { PointRange n }
    ensures { result ≡ band_held i (rate_of m) (rate_of n) (pos n.down) (pos n.up) }
{
    Pair { i, m, n }.band()
}
