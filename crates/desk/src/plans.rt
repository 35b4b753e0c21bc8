// The plan of a text.
ghost use Rattle.desk.specs.Plans.{Reads};

use common::Located;
use formtable::record::RECORDS;
use formtable::{FormTable, Record};
use lexer::TextFault;
use reader::read;

// A plan that was read: its name and its vetted table.
#[derive(Drop)]
pub struct Plan<'a> {
    pub name: &'a [u8],
    pub table: FormTable,
}

// The plan that a text writes, or the first fault of the text.
pub fn plan_of(text: &[u8]) -> Result<Plan<'_>, Located<TextFault>>
    ensures { Reads text.now result }
{
    let mut records = [Record::EMPTY; RECORDS];
    let plan = read(text, &mut records)?;
    let mut table = FormTable::new();
    // What was read passes vetting.
    table.vet(&records[..plan.count]).unwrap();
    Ok(Plan {
        name: plan.name,
        table,
    })
}
