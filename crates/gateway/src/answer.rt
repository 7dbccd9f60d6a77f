// "one figure, or minus the refusal number"
ghost use Rattle.std.specs.Prelude.{◌≡◌, ◌^◌, ◌<◌, pos, neg_ℤ};
ghost use Rattle.paper.specs.Verdicts.{number_of};

use paper::Verdict;

// No `From` makes an i64 of a u64: that it fits is what is required.
pub fn figure(n: u64) -> i64
    requires { n < 2 ^ 63 }
    ensures { result ≡ pos n }
{
    n as i64
}

pub fn refusal(v: Verdict) -> i64
    requires { number_of v < 2 ^ 63 }
    ensures { result ≡ neg_ℤ (pos (number_of v)) }
{
    0 - v.number() as i64
}
