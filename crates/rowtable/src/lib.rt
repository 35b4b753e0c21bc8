// Row tables: processes written as lists of transitions, and their vetting.
#![tactic(auto)]

pub mod fault;
mod index;
mod rows;
pub mod table;
pub mod transition;

pub use fault::RowFault;
pub use table::RowTable;
pub use transition::Transition;

#[cfg(test)]
mod tests;
