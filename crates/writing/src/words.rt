// What a word is.
ghost use Rattle.std.specs.Prelude.{◌≡◌};
ghost use Rattle.writing.specs.Words.{is_word};

use lexer::{MAX_WORD, is_word_byte};

// Is this one word: 1 to 8 letters and digits?
pub fn is_word(bytes: &[u8]) -> bool
    ensures { result ≡ is_word bytes.now }
{
    (1..=MAX_WORD).contains(&bytes.len()) && bytes.iter().all(|byte| is_word_byte(*byte))
}
