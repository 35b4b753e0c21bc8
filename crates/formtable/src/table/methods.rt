// Vetting, and a vetted table as a process.
ghost use Rattle.std.specs.Prelude.{◌≡◌, ◌≤◌, length, take};
ghost use Rattle.common.specs.Faults.{numbered};
ghost use Rattle.formtable.specs.Faults.{form_number};
ghost use Rattle.formtable.specs.Meaning.{Judged, Meant};
ghost use Rattle.formtable.specs.Table.{contents, held, meaning as meant, single};
ghost use Rattle.formtable.specs.Vet.{verdict};
ghost use Rattle.formtable.specs.Bounds.{vetted_limits};

use crate::fault::FormFault;
use crate::layout::{count, nth_move};
use crate::record::{RECORDS, Record};
use crate::table::FormTable;
use crate::vet::tested;
use process::{Move, Process};

// The records, and empty ones after them.
fn copied(raw: &[Record]) -> [Record; RECORDS]
    requires { length raw.now ≤ 64 }
    ensures { take (length raw.now) result ≡ raw.now }
{
    let mut records = [Record::EMPTY; RECORDS];
    records[..raw.len()].copy_from_slice(raw);
    records
}

impl FormTable {
    // A table of a single end.
    pub fn new() -> Self
        ensures { contents result ≡ single }
    {
        FormTable {
            records: [Record::EMPTY; RECORDS],
            len: 1,
        }
    }

    // Takes the records over if they pass every test, and is a single end if not.
    // What it then holds means what its terms do; the answer says which terms write the records.
    pub fn vet(&mut self, raw: &[Record]) -> Result<(), FormFault>
        ensures answer { numbered form_number result ≡ verdict raw.now }
        ensures after { contents self.new ≡ held (verdict raw.now) raw.now }
        ensures means { Meant (contents self.new) }
        ensures judged { Judged raw.now }
    {
        *self = FormTable::new();
        tested(raw)?;
        *self = FormTable {
            records: copied(raw),
            len: raw.len(),
        };
        Ok(())
    }

    // The records that it holds.
    fn records(&self) -> &[Record]
        ensures { result.now ≡ contents self.now }
    {
        &self.records[..self.len]
    }
}

impl Process for FormTable {
    ghost meaning = { meant };

    ghost limits = { λ x. vetted_limits (contents x) x.passed };

    fn states(&self) -> u8 {
        self.len as u8
    }

    fn degree(&self, s: u8) -> u8 {
        count(self.records(), s as usize)
    }

    fn move_at(&self, s: u8, k: u8) -> Option<Move> {
        nth_move(self.records(), s as usize, k)
    }
}
