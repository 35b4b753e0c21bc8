// One task from beginning to end: two plans judged and driven, a third beyond the permit.
#![tactic(auto)]

mod calls;
mod judging;
mod runs;
mod step;
mod whole;

pub use judging::Finding;
pub use step::{Asked, Made, Reply};
pub use whole::{Outcome, one_task};
