// What every layer shares: a fault with its place, the look-up of the first record with a key, and the filling of a list.
#![tactic(auto)]

pub mod fault;
pub mod lists;
pub mod lookup;

pub use fault::{Located, Numbered};
pub use lists::fill_from;
pub use lookup::{Keyed, find_first};
