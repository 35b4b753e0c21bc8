// Where the forms of a table end, and the moves of their places.
ghost use Rattle.std.specs.Prelude.{◌≡◌, true, [], Some, length};
ghost use Rattle.std.specs.List.{slice_get};
ghost use Rattle.formtable.specs.Layout.{Near, form_at, moves, moves_by};
ghost use Rattle.formtable.specs.Layout.{past as past_of};
ghost use Rattle.formtable.specs.Vet.{vetted};

use crate::record::{Form, Record};
use process::{Move, SILENT};

// Kept: each function takes the records and a place of its own; a struct round the one slice would only rename it.

// The form that the record at place i says: None where no record stands, or one of a kind that is not known.
pub fn form_at(table: &[Record], i: usize) -> Option<Form>
    ensures { result ≡ form_at table.now i }
{
    // Kept: a match, which is compiled to fewer steps than ok().
    match Form::try_from(*table.get(i)?) {
        Ok(form) => Some(form),
        Err(_) => None,
    }
}

// The place after the form at i; None where it is not laid out well.
pub fn past(table: &[Record], i: usize) -> Option<usize>
    ensures { result ≡ past_of table.now i }
{
    match form_at(table, i)? {
        Form::End | Form::Go(_) => Some(i + 1),
        Form::Do(_) | Form::Tau | Form::Rec => past(table, i + 1),
        Form::Or(r) => {
            let left = past(table, i + 1)?;
            if left != r as usize {
                return None;
            }
            past(table, left)
        }
    }
}

// The number of moves of the form at i: 0 where no record stands.
pub fn count(table: &[Record], i: usize) -> u8
    requires { vetted table.now ≡ true }
    ensures { result ≡ length (moves table.now i) }
{
    match form_at(table, i) {
        None | Some(Form::End) => 0,
        Some(Form::Or(r)) => count(table, i + 1) + count(table, r as usize),
        Some(_) => 1,
    }
}

// Move k of the form at i: None where it has no such move.
pub fn nth_move(table: &[Record], i: usize, k: u8) -> Option<Move>
    requires { vetted table.now ≡ true }
    ensures { result ≡ slice_get (moves table.now i) k }
{
    match form_at(table, i)? {
        Form::Or(r) => {
            let left = count(table, i + 1);
            if k < left {
                nth_move(table, i + 1, k)
            } else {
                nth_move(table, r as usize, k - left)
            }
        }
        form => { if k == 0 { only_move(form, i) } else { None } }
    }
}

// The move of a form at i that is no or: None where it has none.
fn only_move(form: Form, i: usize) -> Option<Move>
    requires { Near i (Some form) }
    ensures { result ≡ slice_get (moves_by (λ _. []) i (Some form)) 0 }
{
    let (motion, next) = match form {
        Form::Do(a) => (a as u8, i + 1),
        Form::Tau | Form::Rec => (SILENT, i + 1),
        Form::Go(k) => (SILENT, k as usize + 1),
        Form::End | Form::Or(_) => return None,
    };
    Some(Move {
        motion,
        target: next as u8,
    })
}
