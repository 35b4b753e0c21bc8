// The controller: it keeps an admitted plan, and releases one motion after the other.
#![tactic(auto)]

pub mod controller;
pub mod fault;
pub mod run;
pub mod slip;

pub use controller::Controller;
pub use fault::{AdmitFault, DriverFault};
pub use run::Stage;
pub use slip::Slip;

#[cfg(test)]
mod tests;
