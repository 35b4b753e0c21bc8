// The moves of a process, copied into fixed memory: one type for every room.
#![tactic(auto)]

pub mod lists;
pub mod table;

pub use lists::MoveLists;
pub use table::{MoveTable, moves_in_all};
