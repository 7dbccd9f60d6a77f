// Document 01, "Units and ranges", as code: the range tests of what a call gives, each equal to its definition. A test
// that divides, by the step or the grid, requires that it is not 0; the tests of the statics and of an admission ask
// nothing of their callers.
#![tactic(auto)]

mod calls;
mod prices;
mod statics;

pub use calls::{
    valid_admission, valid_day_numbers, valid_figures, valid_id, valid_quote, valid_side,
    valid_term, valid_terms,
};
pub use prices::{grid_of, is_grid_price, is_on_grid, is_price, is_rate};
pub use statics::{
    given_of, number_at, numbers_of, statics_of, valid_given, valid_statics, valid_tentative,
};
