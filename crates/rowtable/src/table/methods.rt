// Vetting, and what a vetted table keeps.
ghost use Rattle.std.specs.Prelude.{◌≡◌};
ghost use Rattle.common.specs.Faults.{numbered};
ghost use Rattle.rowtable.specs.Faults.{row_number};
ghost use Rattle.rowtable.specs.Rows.{held, single, verdict};
ghost use Rattle.rowtable.specs.Table.{contents};
ghost use Rattle.rowtable.specs.Vetted.{written};

use crate::fault::RowFault;
use crate::rows::{MAX_ROWS, Rows};
use crate::table::RowTable;
use crate::transition::Transition;
use movetable::MoveTable;

// What stands where no row does.
const BLANK: Transition = Transition {
    from: 0,
    motion: 0,
    to: 0,
};

impl RowTable {
    // One state without rows.
    pub fn new() -> Self
        ensures { contents result ≡ single }
    {
        RowTable {
            states: 1,
            rows: [BLANK; MAX_ROWS],
            len: 0,
            index: MoveTable::new(),
        }
    }

    // The table of the rows.
    fn of(vetted: &Rows) -> Self
        ensures { contents result ≡ written vetted.now }
    {
        let len = vetted.rows.len();
        let mut rows = [BLANK; MAX_ROWS];
        rows[..len].copy_from_slice(vetted.rows);
        RowTable {
            states: vetted.states,
            rows,
            len,
            index: vetted.index(),
        }
    }

    // Takes the table over if it passes every test; if not, this is one state without rows.
    pub fn vet(&mut self, states: u8, rows: &[Transition]) -> Result<(), RowFault>
        ensures answer { numbered row_number result ≡ verdict states rows.now }
        ensures after { contents self.new ≡ held (verdict states rows.now) states rows.now }
    {
        *self = RowTable::new();
        *self = RowTable::of(&Rows::vetted(states, rows)?);
        Ok(())
    }
}
