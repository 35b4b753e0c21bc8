// The whole text of a plan.
ghost use Rattle.std.specs.Prelude.{◌≡◌, ◌-◌, ◌≤◌, ◌++◌, length, take, replicate, IfOk};
ghost use Rattle.reader.specs.Promises.{Spells, Vets};
ghost use Rattle.reader.specs.Reading.{read_plan, Plans, Told, Leaves, empty_record};
ghost use Rattle.reader.specs.Stops.{Stops};

use crate::cursor::Cursor;
use crate::forms::form;
use crate::scope::Scope;
use common::{Located, fill_from};
use formtable::Record;
use lexer::{TextFault, Token};

// The length of the longest text.
const MAX_TEXT: usize = 16_384;

// A plan that was read: its name, as that part of the text, and the count of its records.
#[derive(Clone, Copy, Debug, PartialEq, Eq)]
pub struct Plan<'a> {
    pub name: &'a [u8],
    pub count: usize,
}

// A text that is not too long: (plan NAME TERM), and nothing after it.
fn whole<'a>(text: &'a [u8], records: &mut [Record]) -> Result<Plan<'a>, Located<TextFault>>
    ensures within { IfOk result (λ x. x.count ≤ length records.old) }
    ensures reads { Plans (read_plan text.now (length records.old)) text.entry records.old result records.new }
{
    if text.len() > MAX_TEXT {
        return Err(Located::at(TextFault::TooLong, 0));
    }
    let mut cursor = Cursor::new(text);
    cursor.take(Token::Open)?;
    cursor.take(Token::Word(b"plan"))?;
    let name = cursor.word()?;
    let count = form(&mut cursor, 0, records, Scope::OUTERMOST)?;
    cursor.take(Token::Close)?;
    cursor.finish()?;
    Ok(Plan {
        name: name.what,
        count,
    })
}

// Reads a plan, or tells its first fault, and empties the records that the plan does not have.
fn read_and_clear<'a>(
    text: &'a [u8],
    records: &mut [Record],
) -> Result<Plan<'a>, Located<TextFault>>
    ensures { Told (read_plan text.now (length records.old)) text.entry (length records.old) result records.new }
{
    let read = whole(text, records);
    let kept = read.as_ref().map_or(0, |plan| plan.count);
    fill_from(records, kept, Record::EMPTY);
    read
}

// Reads a plan; records after its count are empty, and after a refusal every record is.
pub fn read<'a>(text: &'a [u8], records: &mut [Record]) -> Result<Plan<'a>, Located<TextFault>>
    ensures is { Told (read_plan text.now (length records.old)) text.entry (length records.old) result records.new }
    ensures leaves { Leaves result (length records.old) records.new }
    ensures spells { Spells text.entry (length records.old) result records.new }
    ensures vets { Vets result records.new }
    ensures stops { Stops text.now (length records.old) result }
{
    read_and_clear(text, records)
}
