// Vetted tables of either kind, as one process.
ghost use Rattle.cases.specs.Tables.{meaning_of};
ghost use Rattle.formtable.specs.Table.{contents};
ghost use Rattle.formtable.specs.Bounds.{vetted_limits};
ghost use Rattle.rowtable.specs.Tables.{table_limits};
ghost use Rattle.cases.specs.declared.table.Table.TheVariants.{Rows, Forms};

use formtable::{FormFault, FormTable, Record};
use process::{Move, Process};
use rowtable::{RowFault, RowTable, Transition};

#[derive(Drop)]
pub enum Table {
    Rows(RowTable),
    Forms(FormTable),
}

impl Table {
    ghost use Rattle.std.specs.Prelude.{◌≡◌};
    ghost use Rattle.common.specs.Faults.{numbered};
    ghost use Rattle.formtable.specs.Faults.{form_number};
    ghost use Rattle.formtable.specs.Meaning.{process};
    ghost use Rattle.formtable.specs.Table.{held as held_forms};
    ghost use Rattle.formtable.specs.Vet.{verdict as forms_verdict};
    ghost use Rattle.rowtable.specs.Faults.{row_number};
    ghost use Rattle.rowtable.specs.Rows.{meant, single, held as held_rows, verdict as rows_verdict};

    // One state without moves.
    pub fn new() -> Self
        ensures { meaning_of result ≡ meant single }
    {
        Table::Rows(RowTable::new())
    }

    // Vets rows into it. A form table becomes a row table first.
    pub(crate) fn vet_rows(&mut self, states: u8, rows: &[Transition]) -> Result<(), RowFault>
        ensures answer { numbered row_number result ≡ rows_verdict states rows.now }
        ensures after { meaning_of self.new ≡ meant (held_rows (rows_verdict states rows.now) states rows.now) }
    {
        if let Table::Rows(table) = self {
            return table.vet(states, rows);
        }
        let mut table = RowTable::new();
        let vetted = table.vet(states, rows);
        *self = Table::Rows(table);
        vetted
    }

    // Vets records into it. A row table becomes a form table first.
    pub(crate) fn vet_forms(&mut self, records: &[Record]) -> Result<(), FormFault>
        ensures answer { numbered form_number result ≡ forms_verdict records.now }
        ensures after { meaning_of self.new ≡ process (held_forms (forms_verdict records.now) records.now) }
    {
        if let Table::Forms(table) = self {
            return table.vet(records);
        }
        let mut table = FormTable::new();
        let vetted = table.vet(records);
        *self = Table::Forms(table);
        vetted
    }
}

impl Process for Table {
    ghost meaning = { meaning_of };

    ghost limits = { elim [
      | Rows t ↦ table_limits _ _ t.ok
      | Forms t ↦ vetted_limits (contents t) t.passed
    ] };

    fn states(&self) -> u8 {
        match self {
            Table::Rows(t) => t.states(),
            Table::Forms(t) => t.states(),
        }
    }

    fn degree(&self, s: u8) -> u8 {
        match self {
            Table::Rows(t) => t.degree(s),
            Table::Forms(t) => t.degree(s),
        }
    }

    fn move_at(&self, s: u8, k: u8) -> Option<Move> {
        match self {
            Table::Rows(t) => t.move_at(s, k),
            Table::Forms(t) => t.move_at(s, k),
        }
    }
}
