// What the programs that report on plans share: the lists of a report, and the plan of a text as a vetted table.
#![tactic(auto)]

mod found;
mod lists;
mod plans;

pub use found::{Found, find};
pub use lists::{Desk, DoesNotFit};
pub use plans::{Plan, plan_of};
