// What can be wrong with a text.
ghost use Rattle.std.specs.Prelude.{◌≡◌};
ghost use Rattle.lexer.specs.Faults.{text_number};

use common::Numbered;

#[derive(Clone, Copy, Debug, PartialEq, Eq)]
pub enum TextFault {
    TooLong,
    BadToken,
    Unexpected,
    NoMotion,
    NotBound,
    NotGuarded,
    TooManyForms,
    ListShort,
}

impl Numbered for TextFault {
    ghost number_of = { text_number };

    fn number(&self) -> u8 {
        match self {
            TextFault::TooLong => 11,
            TextFault::BadToken => 12,
            TextFault::Unexpected => 13,
            TextFault::NoMotion => 14,
            TextFault::NotBound => 15,
            TextFault::NotGuarded => 16,
            TextFault::TooManyForms => 17,
            TextFault::ListShort => 51,
        }
    }
}
