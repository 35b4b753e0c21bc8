// Reading one token of a text.
ghost use Rattle.std.specs.Prelude.{◌≡◌, ◌≤◌, length, drop};
ghost use Rattle.std.specs.List.{prefix_len};
ghost use Rattle.lexer.specs.Bytes.{alnum, blank, class_of};
ghost use Rattle.lexer.specs.Lex.{lex, step_of, word_step, InText};

use crate::fault::TextFault;
use crate::token::{Placed, Token};
use common::Located;

// The length of the longest word.
pub const MAX_WORD: usize = 8;

// What a byte is to the lexer.
#[derive(Clone, Copy, Debug, PartialEq, Eq)]
pub enum Class {
    Open,
    Close,
    Blank,
    Letter,
    Foreign,
}

// Is the byte a letter from a to z, or a digit?
pub fn is_word_byte(b: u8) -> bool
    ensures { result ≡ alnum b }
{
    matches!(b as char, 'a'..='z' | '0'..='9')
}

// The bytes of a text are brackets, space, line feed, small letters and digits.
pub fn class_of(b: u8) -> Class
    ensures { result ≡ class_of b }
{
    match b as char {
        '(' => Class::Open,
        ')' => Class::Close,
        ' ' | '\n' => Class::Blank,
        'a'..='z' | '0'..='9' => Class::Letter,
        _ => Class::Foreign,
    }
}

// How many letters and digits stand at the front.
fn word_len(rest: &[u8]) -> usize
    ensures { result ≡ prefix_len alnum rest.now }
{
    rest.iter().take_while(|b| is_word_byte(**b)).count()
}

// The word at a place, or the fault of a word over 8 bytes.
fn word_at<'a>(
    text: &'a [u8],
    place: usize,
) -> Result<Option<Placed<Token<'a>>>, Located<TextFault>>
    requires { place ≤ length text.now }
    ensures step { step_of result ≡ word_step (drop place text.now) place }
    ensures part { InText text.entry result }
{
    let rest = &text[place..];
    let len = word_len(rest);
    if len > MAX_WORD {
        return Err(Located::at(TextFault::BadToken, place));
    }
    Ok(Some(Placed {
        what: Token::Word(&rest[..len]),
        place,
        next: place + len,
    }))
}

// How many blanks stand at the front.
fn blank_len(rest: &[u8]) -> usize
    ensures { result ≡ prefix_len blank rest.now }
{
    rest.iter()
        .take_while(|b| class_of(**b) == Class::Blank)
        .count()
}

// The first token from a place on; None where only blanks are left.
pub fn next_token<'a>(
    text: &'a [u8],
    at: usize,
) -> Result<Option<Placed<Token<'a>>>, Located<TextFault>>
    ensures step { step_of result ≡ lex (drop at text.now) at }
    ensures part { InText text.entry result }
{
    let Some(rest) = text.get(at..) else {
        return Ok(None);
    };
    let place = at + blank_len(rest);
    let Some(b) = text.get(place) else {
        return Ok(None);
    };
    let what = match class_of(*b) {
        Class::Open => Token::Open,
        Class::Close => Token::Close,
        Class::Letter => return word_at(text, place),
        Class::Foreign => return Err(Located::at(TextFault::BadToken, place)),
        Class::Blank => unreachable!(),
    };
    let next = place + 1;
    Ok(Some(Placed { what, place, next }))
}
