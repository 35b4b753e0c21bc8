// Tables as a line writes them, and their vetting.
ghost use Rattle.std.specs.Prelude.{◌≡◌};
ghost use Rattle.cases.specs.Raw.{ReadsTable, LacksTable, Vetted, meaning_before, meaning_then, settled_by, verdict_on};
ghost use Rattle.cases.specs.Tables.{meaning_of};

use crate::numbers::{LineFault, Numbers, Written};
use crate::table::Table;
use common::Numbered;
use formtable::Record;
use rowtable::Transition;

// A table that nothing is known of.
#[derive(Drop)]
pub enum RawTable {
    // So many states, and the rows.
    Rows(u8, Vec<Transition>),
    Forms(Vec<Record>),
}

// A refusal by vetting: its number, and what it left.
#[derive(Drop)]
pub struct Refused {
    pub number: u8,
    pub left: Table,
}

// 0 STATES ROWS (FROM MOTION TO).. for a row table, 1 RECORDS (KIND ARGUMENT).. for a form table.
impl Written for RawTable {
    type Fault = LineFault;

    ghost Reads = { ReadsTable };

    ghost Lacks = { LacksTable };

    fn read(numbers: &mut Numbers) -> Result<RawTable, LineFault> {
        if u64::read(numbers)? == 0 {
            Ok(RawTable::Rows(u8::read(numbers)?, Vec::read(numbers)?))
        } else {
            Ok(RawTable::Forms(Vec::read(numbers)?))
        }
    }
}

// A table that was vetted, or the number of the fault with it.
fn settled(vetted: Result<(), u8>, table: Table) -> Result<Table, Refused>
    ensures { result ≡ settled_by vetted table }
{
    match vetted {
        Ok(()) => Ok(table),
        Err(fault) => Err(Refused {
            number: fault,
            left: table,
        }),
    }
}

impl RawTable {
    // Makes a table one of its kind that holds something, before it is used.
    pub fn prepare(&self, table: &mut Table)
        ensures { meaning_of table.new ≡ meaning_before self.now }
    {
        match self {
            RawTable::Rows(_, _) => {
                let row = Transition {
                    from: 0,
                    motion: 1,
                    to: 1,
                };
                let _ = table.vet_rows(2, &[row]);
            }
            RawTable::Forms(_) => {
                let first = Record {
                    kind: 1,
                    argument: 1,
                };
                let _ = table.vet_forms(&[first, Record::EMPTY]);
            }
        }
    }

    // Vets it into a table of either kind. A refusal is told by its number.
    pub fn vet_into(&self, table: &mut Table) -> Result<(), u8>
        ensures answer { result ≡ verdict_on self.now }
        ensures after { meaning_of table.new ≡ meaning_then self.now }
    {
        match self {
            RawTable::Rows(states, rows) => table
                .vet_rows(*states, rows)
                .map_err(|fault| fault.number()),
            RawTable::Forms(records) => { table.vet_forms(records).map_err(|fault| fault.number()) }
        }
    }

    // What vetting makes of it. The table that it is written into holds another before.
    pub fn vet(&self) -> Result<Table, Refused>
        ensures { Vetted self.now result }
    {
        let mut table = Table::new();
        self.prepare(&mut table);
        settled(self.vet_into(&mut table), table)
    }
}
