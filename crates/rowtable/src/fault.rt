// Why a row table is refused.
ghost use Rattle.rowtable.specs.Faults.{row_number};

use common::Numbered;

#[derive(Clone, Copy, Debug, PartialEq, Eq)]
pub enum RowFault {
    // No state, or too many.
    StateCount,
    // Too many rows.
    RowCount,
    // A row with a state or a motion that does not exist.
    BadRow,
}

impl Numbered for RowFault {
    ghost number_of = { row_number };

    fn number(&self) -> u8 {
        match self {
            RowFault::StateCount => 31,
            RowFault::RowCount => 32,
            RowFault::BadRow => 33,
        }
    }
}
