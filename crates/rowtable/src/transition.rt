// The rows of a row table.
ghost use Rattle.std.specs.Prelude.{◌≡◌};
ghost use Rattle.rowtable.specs.Rows.{move_of, ok_row};

use process::{LAST_MOTION, Move};

// One row: from a state by a motion, 0 for a silent step, to a state.
#[derive(Clone, Copy, Debug, PartialEq, Eq)]
pub struct Transition {
    pub from: u8,
    pub motion: u8,
    pub to: u8,
}

impl Transition {
    // Does every part of the row exist, in a table with so many states?
    pub(crate) fn exists(self, states: u8) -> bool
        ensures { result ≡ ok_row states self }
    {
        self.from < states && self.to < states && self.motion <= LAST_MOTION
    }
}

// The row as a move of the state that it starts from.
impl From<Transition> for Move {
    ghost from_gives = { λ row m. m ≡ move_of row };

    fn from(row: Transition) -> Move {
        Move {
            motion: row.motion,
            target: row.to,
        }
    }
}
