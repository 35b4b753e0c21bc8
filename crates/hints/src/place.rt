// Places of a text, as an author looks for them.
ghost use Rattle.std.specs.Prelude.{◌≡◌, ◌≤◌, length};
ghost use Rattle.std.specs.List.{prefix_len, suffix_len};
ghost use Rattle.lexer.specs.Bytes.{alnum};
ghost use Rattle.hints.specs.Place.{after, before, line_around, not_feed, position_of, token_len};

use lexer::is_word_byte;

const LINE_FEED: u8 = b'\n';

// A line and a column, both counted from 1.
#[derive(Clone, Copy, Debug, PartialEq, Eq)]
pub struct Position {
    pub line: usize,
    pub column: usize,
}

// A place of a text. One past the end of the text is taken for its end.
#[derive(Clone, Copy, Debug)]
pub struct Spot<'a> {
    pub text: &'a [u8],
    pub place: usize,
}

// How many bytes stand at the front up to a line feed.
fn line_len(bytes: &[u8]) -> usize
    ensures is { result ≡ prefix_len not_feed bytes.now }
    ensures few { result ≤ length bytes.now }
{
    bytes.iter().take_while(|b| **b != LINE_FEED).count()
}

// How many letters and digits stand at the front.
fn word_len(bytes: &[u8]) -> usize
    ensures { result ≡ prefix_len alnum bytes.now }
{
    bytes.iter().take_while(|b| is_word_byte(**b)).count()
}

impl<'a> Spot<'a> {
    // What stands before the place, and what from it on.
    fn parts(&self) -> (&'a [u8], &'a [u8])
        ensures before { result.0.now ≡ before self.now }
        ensures after { result.1.now ≡ after self.now }
    {
        self.text.split_at(self.place.min(self.text.len()))
    }

    // How many bytes of its line stand before the place.
    fn offset(&self) -> usize
        ensures is { result ≡ suffix_len not_feed (before self.now) }
        ensures few { result ≤ length (before self.now) }
    {
        let (before, _) = self.parts();
        before.iter().rev().take_while(|b| **b != LINE_FEED).count()
    }

    // The line and the column of the place.
    pub fn position(&self) -> Position
        ensures { result ≡ position_of self.now }
    {
        let (before, _) = self.parts();
        Position {
            line: 1 + before.iter().filter(|b| **b == LINE_FEED).count(),
            column: 1 + self.offset(),
        }
    }

    // The line around the place, without its line feed.
    pub fn line(&self) -> &'a [u8]
        ensures { result.now ≡ line_around self.now }
    {
        let (before, after) = self.parts();
        &self.text[before.len() - self.offset()..before.len() + line_len(after)]
    }

    // The length of the token that begins at the place: a word's letters, and 1 for anything else.
    pub fn token_len(&self) -> usize
        ensures { result ≡ token_len self.now }
    {
        let (_, after) = self.parts();
        word_len(after).max(1)
    }
}
