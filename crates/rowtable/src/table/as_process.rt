// A vetted row table as a process.
ghost use Rattle.rowtable.specs.Table.{meaning_of};
ghost use Rattle.rowtable.specs.Tables.{table_limits};

use crate::table::RowTable;
use process::{Move, Process};

impl Process for RowTable {
    ghost meaning = { meaning_of };

    ghost limits = { λ x. table_limits _ _ x.ok };

    fn states(&self) -> u8 {
        self.index.states()
    }

    fn degree(&self, s: u8) -> u8 {
        self.index.degree(s)
    }

    fn move_at(&self, s: u8, k: u8) -> Option<Move> {
        self.index.move_at(s, k)
    }
}
