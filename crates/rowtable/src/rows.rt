// Vetting, and rows that have passed it.
ghost use Rattle.std.specs.Prelude.{◌≡◌, true, IfOk};
ghost use Rattle.rowtable.specs.Rows.{table_meaning, vetted, verdict};
ghost use Rattle.rowtable.specs.Tables.{table_limits};

use crate::fault::RowFault;
use crate::transition::Transition;
use process::{MAX_STATES, Move, Process};

// How many rows a table may have.
pub const MAX_ROWS: usize = 255;

// A number of states and the rows of all of them, after every test of vetting: a process.
#[derive(Clone, Copy)]
pub struct Rows<'a> {
    pub states: u8,
    pub rows: &'a [Transition],
    ghost ok: { vetted states rows.now ≡ true },
}

impl<'a> Rows<'a> {
    ghost use Rattle.rowtable.specs.Vetted.{tested, Holds};

    // The rows if they pass every test; else the first test that fails.
    pub fn vetted(states: u8, rows: &'a [Transition]) -> Result<Rows<'a>, RowFault>
        ensures answer { tested result ≡ verdict states rows.now }
        ensures rows { IfOk result (Holds states rows.now) }
    {
        if !(1..=MAX_STATES).contains(&states) {
            return Err(RowFault::StateCount);
        }
        if rows.len() > MAX_ROWS {
            return Err(RowFault::RowCount);
        }
        if !rows.iter().all(|row| row.exists(states)) {
            return Err(RowFault::BadRow);
        }
        Ok(Rows { states, rows })
    }
}

impl<'a> Process for Rows<'a> {
    ghost meaning = { λ r. table_meaning r.states r.rows.now };

    ghost limits = { λ r. table_limits _ _ r.ok };

    fn states(&self) -> u8 {
        self.states
    }

    fn degree(&self, s: u8) -> u8 {
        self.rows.iter().filter(|row| row.from == s).count() as u8
    }

    fn move_at(&self, s: u8, k: u8) -> Option<Move> {
        self.rows
            .iter()
            .filter(|row| row.from == s)
            .map(|row| Move::from(*row))
            .nth(k as usize)
    }
}
