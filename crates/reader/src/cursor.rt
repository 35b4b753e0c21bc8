// A text that is read token by token.
ghost use Rattle.std.specs.Prelude.{◌≡◌, Err, MatchResult};
ghost use Rattle.lexer.specs.Lex.{tok_of};
ghost use Rattle.reader.specs.Tokens.{next_tok, takes, words, ends, passed, TokenIs, NoToken, WordIs};

use common::Located;
use lexer::{Placed, TextFault, Token, next_token};

// A text, and how far it is read. A step leaves the place after what it read; after a fault the place says nothing.
#[derive(Debug, Drop)]
pub struct Cursor<'a> {
    pub text: &'a [u8],
    pub at: usize,
}

impl<'a> Cursor<'a> {
    // Nothing of the text is read yet.
    pub(crate) fn new(text: &'a [u8]) -> Self
        ensures { result ≡ record { text = text.entry; at = 0 } }
    {
        Cursor { text, at: 0 }
    }

    // The next token; the end of the text is at fault where a token must stand.
    fn token(&mut self) -> Result<Placed<Token<'a>>, Located<TextFault>>
        ensures text { self.new.text ≡ self.old.text }
        ensures is { MatchResult result (λ t. TokenIs self.old.text self.old.at t × (self.new.at ≡ t.next)) (NoToken self.old.text.now self.old.at) }
    {
        let Some(t) = next_token(self.text, self.at)? else {
            return Err(Located::at(TextFault::Unexpected, self.text.len()));
        };
        self.at = t.next;
        Ok(t)
    }

    // The token that is wanted.
    pub(crate) fn take(&mut self, wanted: Token) -> Result<(), Located<TextFault>>
        ensures text { self.new.text ≡ self.old.text }
        ensures is { passed result self.new.at ≡ takes (tok_of wanted.entry) (next_tok self.old.text.now self.old.at) }
    {
        let t = self.token()?;
        if t.what == wanted {
            Ok(())
        } else {
            Err(Located::at(TextFault::Unexpected, t.place))
        }
    }

    // A word.
    pub(crate) fn word(&mut self) -> Result<Placed<&'a [u8]>, Located<TextFault>>
        ensures text { self.new.text ≡ self.old.text }
        ensures is { MatchResult result (λ w. WordIs self.old.text self.old.at w × (self.new.at ≡ w.next)) (λ f. words (next_tok self.old.text.now self.old.at) ≡ Err f) }
    {
        let t = self.token()?;
        let Token::Word(what) = t.what else {
            return Err(Located::at(TextFault::Unexpected, t.place));
        };
        Ok(Placed {
            what,
            place: t.place,
            next: t.next,
        })
    }

    // The end of the text.
    pub(crate) fn finish(self) -> Result<(), Located<TextFault>>
        ensures { result ≡ ends (next_tok self.entry.text.now self.entry.at) }
    {
        match next_token(self.text, self.at)? {
            Some(t) => Err(Located::at(TextFault::Unexpected, t.place)),
            None => Ok(()),
        }
    }
}
