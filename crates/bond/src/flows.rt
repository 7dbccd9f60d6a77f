// The cash flows of a bond (document 02, W-206): two signed numbers each, lent in one slice, checked, read, and carried
// to a term (11.1).
ghost use Rattle.std.specs.Prelude.{◌≡◌, true, ◌∷◌, ◌+◌, ◌≤◌, ◌<◌, length, MatchOption, IfSome};
ghost use Rattle.paper_bonds.specs.BondNumbers.{money_most, flow_numbers};
ghost use Rattle.paper_bonds.specs.Bonds.{flow_at, lent_flows, valid_flows, flow_of, flows_of};
ghost use Rattle.paper_bonds.specs.Bonds.{carry_term, carry_due, carry_of};
ghost use Rattle.bond.specs.FlowLaws.{CarryInputs};

use paper::YEAR_IN_DAY_BP;
use paper_bonds::{Bond, Flow};

// How many numbers a cash flow has.
const FLOW_NUMBERS: usize = Flow::NUMBERS;

// The end of a range of which the code has the unsigned number: what is lent is signed.
const MONEY_MOST: i64 = Bond::MONEY_MOST as i64;

// ---- ranges

// "0 to 10^10 units, days 1..30": the day, then the amount
const FLOW_LEAST: [i64; Flow::NUMBERS] = [Flow::DAY_LEAST, 0];

const FLOW_MOST: [i64; Flow::NUMBERS] = [Flow::DAY_MOST, MONEY_MOST];

// Whether the numbers are 0 to 4 whole cash flows, each number in its range: else the bond is refused 6.
pub fn flows_valid(numbers: &[i64]) -> bool
    ensures { result ≡ valid_flows numbers.now }
{
    exact::parts_within(numbers, 0, Flow::ALL_NUMBERS_MOST, &FLOW_LEAST, &FLOW_MOST)
}

// ---- a cash flow

// The cash flow that its numbers are. They are the paper's where they are in range.
#[tactic(auto, unfolding(paper_bonds::specs::Bonds::flow_of, paper_bonds::specs::Bonds::flow_at))]
fn flow_of(numbers: &[i64; FLOW_NUMBERS]) -> Flow
    ensures { result ≡ flow_of (flow_at numbers.now 0) }
{
    let [day, amount] = *numbers;
    Flow {
        day: exact::unsigned(day),
        amount: exact::unsigned(amount),
    }
}

// The first cash flow, and the numbers of the others. What it shares with the `split_first` of `interest_maturities` is
// the library's `split_first_chunk`: one function for both would take the reading of a record as a parameter, no plainer.
fn split_first(numbers: &[i64]) -> Option<(Flow, &[i64])>
    ensures first { MatchOption result (length numbers.now < flow_numbers) (λ p. p.0 ≡ flow_of (flow_at numbers.now 0)) }
    ensures others { IfSome result (λ p. lent_flows numbers.now ≡ flow_at numbers.now 0 ∷ lent_flows p.1.now) }
    ensures shorter { IfSome result (λ p. length p.1.now + flow_numbers ≡ length numbers.now) }
{
    let (first, others) = numbers.split_first_chunk::<FLOW_NUMBERS>()?;
    Some((flow_of(first), others))
}

// ---- carry

// The days of a term and REPORate, in range: what the Carry of a cash flow is worked out in.
#[derive(Clone, Copy)]
struct Carry {
    k: u64,
    repo: i64,
    ghost carry_inputs: { CarryInputs k repo },
}

impl Carry {
    // "CashFlow(t)·(1 + REPOrate·(k - t)/36500)", half up to a unit.
    fn term(self, f: Flow) -> u64
        requires { f.amount ≤ money_most }
        ensures { result ≡ carry_term self.repo self.k f }
    {
        let days = exact::grow(YEAR_IN_DAY_BP, self.k.saturating_sub(f.day), self.repo);
        exact::half_up(f.amount * days, YEAR_IN_DAY_BP)
    }

    // Only a cash flow up to day k counts.
    fn due(self, f: Flow) -> u64
        requires { f.amount ≤ money_most }
        ensures { result ≡ carry_due self.repo self.k f }
    {
        if f.day <= self.k { self.term(f) } else { 0 }
    }

    // The sum over the cash flows.
    fn total(self, numbers: &[i64]) -> u64
        requires { valid_flows numbers.now ≡ true }
        ensures { result ≡ carry_of self.repo self.k (flows_of numbers.now) }
    {
        let mut total = 0;
        let mut rest = numbers;
        while let Some((flow, others)) = split_first(rest) {
            total += self.due(flow);
            rest = others;
        }
        total
    }
}

// Carry at a term of k days: the sum over the cash flows.
pub fn carry_of(numbers: &[i64], k: u64, repo: i64) -> u64
    requires carry_inputs { CarryInputs k repo }
    requires numbers_value { valid_flows numbers.now ≡ true }
    ensures { result ≡ carry_of repo k (flows_of numbers.now) }
{
    Carry { k, repo }.total(numbers)
}
