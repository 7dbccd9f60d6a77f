// Document 02, W-201: "The security's evaluation may take these limits or given ones." A day as it is asked for becomes
// a day of document 01.
#![tactic(auto, unfolding(paper::specs::Terms::worked_repo, paper::specs::Terms::repo_of, paper::specs::Terms::term_of, paper::specs::Terms::day_of))]

ghost use Rattle.std.specs.Prelude.{◌≡◌};
ghost use Rattle.paper.specs.Terms.{worked_repo, repo_of, term_of, day_of};

use paper::{AskedDay, AskedTerm, Day, RepoBand, RepoLimits, Term, WorkedBand};

// The limits of a pair that was worked out. One that was refused has no band: its low is above its high, which the
// range test (6) refuses.
fn worked_repo(pair: WorkedBand) -> RepoLimits
    ensures { result ≡ worked_repo pair }
{
    if pair.verdict.is_done() {
        RepoLimits {
            low: pair.lower,
            high: pair.upper,
        }
    } else {
        RepoLimits { low: 1, high: 0 }
    }
}

fn repo_of(band: RepoBand) -> RepoLimits
    ensures { result ≡ repo_of band }
{
    match band {
        RepoBand::AsGiven(repo) => repo,
        RepoBand::WorkedOut(pair) => worked_repo(pair),
    }
}

// One term, of a day or of a bond (W-206).
pub fn term_of(x: AskedTerm) -> Term
    ensures { result ≡ term_of x }
{
    let repo = repo_of(x.band);
    Term {
        k: x.k,
        low: repo.low,
        high: repo.high,
    }
}

// "the worked limits judged by the same range test (6) as given ones": no band is judged here.
pub fn day_of(a: AskedDay) -> Day
    ensures { result ≡ day_of a }
{
    let terms = [term_of(a.first), term_of(a.second), term_of(a.third)];
    Day {
        day: a.day,
        b: a.b,
        m: a.m,
        terms,
    }
}
