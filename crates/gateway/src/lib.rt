// Document 01, "What the desk covers": "The C gateway reaches the rate rules and the limit rules with plain numbers ..
// Each such call gives one figure, or minus the refusal number." Each call is the definition of the paper for every
// input, and asks nothing of its caller.
#![tactic(auto)]

mod answer; // the figure, or minus the refusal number
mod level; // a level's rate
mod limit; // a range limit, a band limit
mod price_and_rate; // the price and the rate of a limit

pub use level::level_answer;
pub use limit::{band_answer, range_answer};
