// Processes, and sets of their states.
#![tactic(auto)]

pub mod move_list;
pub mod moves;
pub mod process;
pub mod sets;

pub use move_list::{MovesOf, moves_of};
pub use moves::{LAST_MOTION, Move, SILENT};
pub use process::Process;
pub use sets::{MAX_STATES, StateSet};
