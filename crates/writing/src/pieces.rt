// Texts put together from pieces.

// Bytes as they are, or a number in decimal.
#[derive(Clone, Copy, Debug, PartialEq, Eq)]
pub enum Piece<'a> {
    Bytes(&'a [u8]),
    Number(usize),
}
