// What is kept of an evening's interest lines (W-201): the answers of the three latest accepted ones.
ghost use Rattle.std.specs.Prelude.{◌≡◌};
ghost use Rattle.text_protocol.specs.Kept.{kept_after, unknown, none_kept, is_of, found_in};

use paper::{Interest, InterestAnswer, Verdict, WorkedBand};
use text_protocol::{Kept, Pair};

// The pair of an accepted interest line becomes the newest. What is refused changes nothing that is kept.
pub fn kept_after(k: Kept, i: Interest, a: InterestAnswer) -> Kept
    ensures { result ≡ kept_after k i a }
{
    let worked = a.pair;
    let verdict = worked.verdict;
    if verdict.is_done() {
        let middle = k.newest;
        let oldest = k.middle;
        return Kept {
            newest: Pair {
                ym: i.ym,
                yn: i.yn,
                worked,
            },
            middle,
            oldest,
        };
    }
    k
}

// No answer: a pair that is not kept makes the day out of range.
fn unknown() -> WorkedBand
    ensures { result ≡ unknown }
{
    WorkedBand {
        verdict: Verdict::OutOfRange,
        lower: 0,
        upper: 0,
    }
}

// Nothing is kept at the start. The pair 0/0, which no interest line may have, stands for it.
pub fn none() -> Kept
    ensures { result ≡ none_kept }
{
    let p = Pair {
        ym: 0,
        yn: 0,
        worked: unknown(),
    };
    Kept {
        newest: p,
        middle: p,
        oldest: p,
    }
}

fn is_of(p: Pair, ym: u64, yn: u64) -> bool
    ensures { result ≡ is_of p ym yn }
{
    (p.ym == ym) & (p.yn == yn)
}

// The newest answer of a pair of terms.
pub fn found(k: Kept, ym: u64, yn: u64) -> WorkedBand
    ensures { result ≡ found_in k ym yn }
{
    let newest = k.newest;
    if is_of(newest, ym, yn) {
        return newest.worked;
    }
    let middle = k.middle;
    if is_of(middle, ym, yn) {
        return middle.worked;
    }
    let oldest = k.oldest;
    if is_of(oldest, ym, yn) {
        return oldest.worked;
    }
    unknown()
}
