// What vetting answers.
ghost use Rattle.std.specs.Prelude.{IfOk};
ghost use Rattle.comparison.specs.Tables.{VetsNext};

use cases::{LineFault, Numbers, RawTable, Table, Written};
use process::{Process, moves_of};
use std::alloc::Global;
use std::fmt;

// Vets the table that stands next, into one that holds something before; or the number of the refusal.
pub(crate) fn vet_next(
    numbers: &mut Numbers,
    table: &mut Table,
) -> Result<Result<(), u8>, LineFault>
    ensures { IfOk result (VetsNext numbers.old table.new numbers.new) }
{
    let raw = RawTable::read(numbers)?;
    raw.prepare(table);
    Ok(raw.vet_into(table))
}

// A vetted table as it is told: its states, each with its moves.
#[derive(Clone, Copy)]
struct Meant<'a>(&'a Table);

impl fmt::Display for Meant<'_> {
    fn fmt<W: fmt::Write>(&self, f: &mut fmt::Formatter<W>) -> fmt::Result {
        let states = self.0.states();
        write!(f, "vetted {states}")?;
        for s in 0..states {
            write!(f, " |")?;
            for m in moves_of(self.0, s) {
                write!(f, " {}>{}", m.motion, m.target)?;
            }
        }
        Ok(())
    }
}

// The answer to TABLE: what the vetted table means, also after a refusal.
pub(crate) fn vetted(heap: Global, numbers: &mut Numbers) -> anyhow::Result<String> {
    let mut table = Table::new();
    match vet_next(numbers, &mut table)? {
        Ok(()) => Ok(format!(in heap; "{}", Meant(&table))?),
        Err(number) => Ok(format!(in heap; "refused {number}, {}", Meant(&table))?),
    }
}
