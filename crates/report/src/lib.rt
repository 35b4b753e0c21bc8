// From the text of a plan to the bytes of its report.
#![tactic(auto)]

mod lines;
mod names;
mod outcome;
mod refusal;

pub use outcome::report;
