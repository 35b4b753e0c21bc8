// One form of a plan, and the forms inside it.
ghost use Rattle.std.specs.Prelude.{◌≡◌, ℕ, ◌+◌, ◌<◌, ◌≤◌, length, IfOk, Ok, Err, MatchResult};
ghost use Rattle.lexer.specs.Lex.{closing};
ghost use Rattle.reader.specs.Tokens.{next_tok, reached, takes};
ghost use Rattle.reader.specs.Reading.{motion_at, go_target_at, around, term_at, Reads};

use crate::cursor::Cursor;
use crate::heads::{Shape, head};
use crate::scope::Scope;
use common::Located;
use formtable::{Form, Record};
use lexer::{TextFault, Token};
use motions::motion_of;

// The motion of a do.
fn motion(cursor: &mut Cursor) -> Result<u16, Located<TextFault>>
    ensures text { cursor.new.text ≡ cursor.old.text }
    ensures is { reached result cursor.new.at ≡ motion_at cursor.old.text.now cursor.old.at }
{
    let w = cursor.word()?;
    motion_of(w.what)
        .map(u16::from)
        .ok_or(Located::at(TextFault::NoMotion, w.place))
}

// The place of the rec that a go names.
fn target(cursor: &mut Cursor, scope: Scope) -> Result<usize, Located<TextFault>>
    ensures text { cursor.new.text ≡ cursor.old.text }
    ensures is { reached result cursor.new.at ≡ go_target_at cursor.old.text.now (around scope.entry) scope.entry.guard cursor.old.at }
    ensures below { IfOk result (λ place. place < scope.entry.guard) }
{
    let w = cursor.word()?;
    let place = scope
        .find(w.what)
        .ok_or(Located::at(TextFault::NotBound, w.place))?;
    if place < scope.guard {
        Ok(place)
    } else {
        Err(Located::at(TextFault::NotGuarded, w.place))
    }
}

// The closing bracket of a form, whose inner forms' records end at `end`.
fn shut(cursor: &mut Cursor, end: usize) -> Result<usize, Located<TextFault>>
    ensures text { cursor.new.text ≡ cursor.old.text }
    ensures is { MatchResult result (λ x. (x ≡ end) × (Ok cursor.new.at ≡ takes closing (next_tok cursor.old.text.now cursor.old.at))) (λ f. Err f ≡ takes closing (next_tok cursor.old.text.now cursor.old.at)) }
{
    cursor.take(Token::Close)?;
    Ok(end)
}

// Reads the form whose record is the one at `place`; those of its inner forms follow. The place after them.
pub(crate) fn form(
    cursor: &mut Cursor,
    place: usize,
    records: &mut [Record],
    scope: Scope,
) -> Result<usize, Located<TextFault>>
    requires few { place ≤ 64 }
    requires near { scope.guard ≤ place }
    ensures text { cursor.new.text ≡ cursor.old.text }
    ensures within { IfOk result (λ end. (place < end) × (end ≤ 64) × (end ≤ length records.old)) }
    ensures reads { (n : ℕ) → 64 ≤ n + place → Reads (term_at n cursor.old.text.now (length records.old) cursor.old.at place (around scope.entry) scope.entry.guard) place records.old result cursor.new.at records.new }
{
    let shape = head(cursor, place, records.len())?;
    let first = place + 1;
    let (said, end) = match shape {
        Shape::End => (Form::End, first),
        Shape::Do => (
            Form::Do(motion(cursor)?),
            form(cursor, first, records, scope.guarded(place))?,
        ),
        Shape::Tau => (Form::Tau, form(cursor, first, records, scope)?),
        Shape::Or => {
            let right = form(cursor, first, records, scope)?;
            (Form::Or(right as u16), form(cursor, right, records, scope)?)
        }
        Shape::Rec => {
            let name = cursor.word()?;
            let rec = scope.binding(name.what, place);
            (Form::Rec, form(cursor, first, records, scope.inside(&rec))?)
        }
        Shape::Go => (Form::Go(target(cursor, scope)? as u16), first),
    };
    records[place] = Record::from(said);
    shut(cursor, end)
}
