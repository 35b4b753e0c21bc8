// Bytes and numbers written into the caller's list, and what a word is.
#![tactic(auto)]

pub mod at_place;
pub mod fault;
pub mod output;
pub mod pieces;
pub mod words;

pub use at_place::{put_bytes, put_number, put_piece, put_pieces};
pub use fault::OutputFault;
pub use output::Output;
pub use pieces::Piece;
pub use words::is_word;

#[cfg(test)]
mod tests;
