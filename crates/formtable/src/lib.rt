// Form tables: a term of a process written as a list of records, vetted before it is used.
#![tactic(auto)]

pub mod examples;
pub mod fault;
mod layout;
pub mod record;
pub mod table;
mod vet;

pub use fault::FormFault;
pub use record::{Form, Record};
pub use table::FormTable;

#[cfg(test)]
mod tests;
