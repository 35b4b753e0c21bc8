// The vetted row table.
ghost use Rattle.std.specs.Prelude.{◌≡◌, ◌≤◌, true, take};
ghost use Rattle.movetable.specs.Once.{same_once};
ghost use Rattle.movetable.specs.Table.{meaning_of as moves_meaning};
ghost use Rattle.rowtable.specs.Rows.{table_meaning, vetted};

use crate::rows::MAX_ROWS;
use crate::transition::Transition;
use movetable::MoveTable;

pub mod as_process;
mod methods;

// A row table that has passed vetting, with the index of its rows: the moves of each state.
#[derive(Drop)]
pub struct RowTable {
    states: u8,
    // Kept: the device has no heap, so the rows stand in an array of a fixed size, with their number.
    rows: [Transition; MAX_ROWS],
    len: usize,
    index: MoveTable<MAX_ROWS>,
    ghost short: { len ≤ 255 },
    ghost ok: { vetted states (take len rows) ≡ true },
    ghost same: { moves_meaning index ≡ table_meaning states (take len rows) } by { same_once (moves_meaning index) (table_meaning states (take len rows)) },
}
