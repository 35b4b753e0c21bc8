// The lines of a report.
ghost use Rattle.std.specs.Prelude.{length};
ghost use Rattle.report.specs.Lines.{within_text, beyond_text, refused_text, text_of, Shown, WritesAll};
ghost use Rattle.report.specs.Refusals.{told_of};
ghost use Rattle.writing.specs.Output.{Writes};

use crate::names::put_names;
use crate::refusal::Refusal;
use search::Answer;
use writing::{Output, OutputFault, Piece};

// What is found of a plan: its name, and whether it is within the permit or beyond it.
#[derive(Clone, Copy)]
pub(crate) struct Found<'a> {
    pub name: &'a [u8],
    pub answer: Answer,
}

// The name line, and within with the count of rows.
fn put_within(to: &mut Output<'_>, name: &[u8], rows: usize) -> Result<(), OutputFault>
    ensures { Writes to.old (within_text name.now rows) result to.new }
{
    to.put_pieces(&[
        Piece::Bytes(b"(plan "),
        Piece::Bytes(name),
        Piece::Bytes(b")\n(within "),
        Piece::Number(rows),
        Piece::Bytes(b")\n"),
    ])
}

// The name line, and beyond with the motions.
fn put_beyond(to: &mut Output<'_>, name: &[u8], motions: &[u8]) -> Result<(), OutputFault>
    ensures { Writes to.old (beyond_text name.now motions.now) result to.new }
{
    to.put_pieces(&[
        Piece::Bytes(b"(plan "),
        Piece::Bytes(name),
        Piece::Bytes(b")\n(beyond"),
    ])?;
    put_names(to, motions)?;
    to.put_bytes(b")\n")
}

// The line of a refusal.
fn put_refused(to: &mut Output<'_>, refusal: Refusal) -> Result<(), OutputFault>
    ensures { let at = told_of refusal in Writes to.old (refused_text at.0 at.1) result to.new }
{
    let (number, place) = refusal.told();
    to.put_pieces(&[
        Piece::Bytes(b"(refused "),
        Piece::Number(number as usize),
        Piece::Bytes(b" "),
        Piece::Number(place),
        Piece::Bytes(b")\n"),
    ])
}

// The lines of what was found; the motions shown are the first of `motions`.
fn put_found(
    to: &mut Output<'_>,
    found: Result<Found<'_>, Refusal>,
    motions: &[u8],
) -> Result<(), OutputFault>
    requires { Shown found (length motions.now) }
    ensures { Writes to.old (text_of found.entry motions.now) result to.new }
{
    match found {
        Ok(plan) => match plan.answer {
            Answer::Within(rows) => put_within(to, plan.name, rows),
            Answer::Beyond(count) => put_beyond(to, plan.name, &motions[..count]),
        },
        Err(refusal) => put_refused(to, refusal),
    }
}

// Writes the lines of what was found, and zeros behind them: the count of the bytes. Where they do not fit, all is zero.
pub(crate) fn put_lines(
    out: &mut [u8],
    found: Result<Found<'_>, Refusal>,
    motions: &[u8],
) -> Result<usize, OutputFault>
    requires { Shown found (length motions.now) }
    ensures { WritesAll out.old (text_of found.entry motions.now) result out.new }
{
    let mut to = Output::new(out);
    match put_found(&mut to, found, motions) {
        Ok(()) => Ok(to.finish()),
        Err(fault) => {
            out.fill(0);
            Err(fault)
        }
    }
}
