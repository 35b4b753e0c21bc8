// What the programs share that answer each line of their input by a line: the numbers of a line, the tables and
// certificates that they write, and the loop over the lines.
#![tactic(auto)]

mod answers;
mod numbers;
mod parts;
mod raw;
mod shown;
mod table;

pub use answers::answer_lines;
pub use numbers::{LineFault, Numbers, Written};
pub use raw::{RawTable, Refused};
pub use shown::{Shown, Spaced};
pub use table::Table;

#[cfg(test)]
mod tests;
