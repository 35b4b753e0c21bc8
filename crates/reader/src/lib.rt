// Reads the text of a plan into the records of a form table.
#![tactic(auto)]

mod cursor;
mod forms;
mod heads;
mod reading;
mod scope;

pub use reading::{Plan, read};
