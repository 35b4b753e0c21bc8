// The search: a certificate that every trace of the plan is one of the permit, or a shortest trace that is not.
#![tactic(auto)]

mod answer;
mod inclusion;
mod listing;
mod question;
mod rule;
mod shown;
pub mod theorems;

pub use answer::{Answer, SearchFault};
pub use inclusion::certify;

#[cfg(test)]
mod tests;
