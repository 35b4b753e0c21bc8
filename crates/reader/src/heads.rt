// The opening bracket and the form word of a form.
ghost use Rattle.std.specs.Prelude.{◌≡◌, ◌<◌, OnOk};
ghost use Rattle.reader.specs.Tokens.{reached};
ghost use Rattle.reader.specs.Reading.{shape_of, head_at};

use crate::cursor::Cursor;
use common::Located;
use formtable::record::RECORDS;
use lexer::{TextFault, Token};

// The form that a form word opens.
// Kept: a form word says no argument, and a Form that has one could only make it up.
#[derive(Clone, Copy, Debug, PartialEq, Eq)]
pub enum Shape {
    End,
    Do,
    Tau,
    Or,
    Rec,
    Go,
}

fn shape_of(w: &[u8]) -> Option<Shape>
    ensures { result ≡ shape_of w.now }
{
    match w {
        b"end" => Some(Shape::End),
        b"do" => Some(Shape::Do),
        b"tau" => Some(Shape::Tau),
        b"or" => Some(Shape::Or),
        b"rec" => Some(Shape::Rec),
        b"go" => Some(Shape::Go),
        _ => None,
    }
}

// The opening bracket and the form word of the form at `place`, with room for `room` records.
pub(crate) fn head(
    cursor: &mut Cursor,
    place: usize,
    room: usize,
) -> Result<Shape, Located<TextFault>>
    ensures text { cursor.new.text ≡ cursor.old.text }
    ensures is { reached result cursor.new.at ≡ head_at cursor.old.text.now room cursor.old.at place }
    ensures within { OnOk result ((place < 64) × (place < room)) }
{
    cursor.take(Token::Open)?;
    let w = cursor.word()?;
    let shape = shape_of(w.what).ok_or(Located::at(TextFault::Unexpected, w.place))?;
    if place >= RECORDS {
        return Err(Located::at(TextFault::TooManyForms, w.place));
    }
    if place >= room {
        return Err(Located::at(TextFault::ListShort, w.place));
    }
    Ok(shape)
}
