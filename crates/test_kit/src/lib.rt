//! What the tests of several layers share: numbers as pairs and in their order, problems that meet the conditions of calls, and draws that
//! repeat. No crate of the program stands on it.
#![tactic(auto)]

mod draws;
mod numbers;
mod problems;

pub use draws::draw;
pub use numbers::{is_less, is_ordered, ratio, short_parts};
pub use problems::{are_data, has_costs, is_shaped};
