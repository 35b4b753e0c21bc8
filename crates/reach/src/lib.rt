// What a process can do in silence: the silent reach of a set of its states, After, and the moves that a state offers.
#![tactic(auto)]

pub mod offered;
pub mod offers;
pub mod reach;

pub use offered::{OffersOf, offers_of};
pub use offers::Offers;
pub use reach::{after, silent_reach};

#[cfg(test)]
mod tests;
