// Tokens of a plan's text.
#![tactic(auto)]

pub mod fault;
pub mod lex;
pub mod token;

pub use fault::TextFault;
pub use lex::{MAX_WORD, is_word_byte, next_token};
pub use token::{Placed, Token};
