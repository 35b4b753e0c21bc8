// The motions of a shuttle, and their names.
#![tactic(auto)]

pub mod naming;
pub mod shown;
pub mod words;

pub use naming::{NAMES, motion_of, name_of, table};
pub use shown::Named;
pub use words::Name;

#[cfg(test)]
mod tests;
