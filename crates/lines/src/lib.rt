// What the test runner has for every kind of line: reading lines and their fields, areas with a pattern in them, and writing an outcome.
#![tactic(auto)]

pub mod area;
pub mod field;
pub mod line;
pub mod say;
