// The gate: the tests that a certificate must pass before a plan is admitted.
#![tactic(auto)]

pub mod admission;
mod claim;
pub mod fault;
pub mod theorems;

pub use admission::{check, first_tests};
pub use fault::CertificateFault;

#[cfg(test)]
mod tests;
