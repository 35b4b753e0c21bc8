// Hints for the author of a plan: where a place of the text stands, and what a process allows after some motions.
#![tactic(auto)]

mod allowed;
mod place;

pub use allowed::{after_motions, allowed_after};
pub use place::{Position, Spot};

#[cfg(test)]
mod tests;
