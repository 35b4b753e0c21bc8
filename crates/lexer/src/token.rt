// Tokens, each with its place.

// A bracket, or a word: that part of the text.
#[derive(Clone, Copy, Debug, PartialEq, Eq)]
pub enum Token<'a> {
    Open,
    Close,
    Word(&'a [u8]),
}

// What stands in a text, the place of its first byte, and the place after its last.
#[derive(Clone, Copy, Debug, PartialEq, Eq)]
pub struct Placed<T> {
    pub what: T,
    pub place: usize,
    pub next: usize,
}
