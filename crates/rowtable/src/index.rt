// The index of a row table: the moves of each state.
ghost use Rattle.std.specs.Prelude.{◌≡◌, ◌+◌, ◌<◌, ◌≤◌, [], ◌∷◌, ◌++◌, length, sum_by};
ghost use Rattle.movetable.specs.Table.{meaning_of as moves_meaning};
ghost use Rattle.rowtable.specs.Rows.{meant, moves_of};
ghost use Rattle.rowtable.specs.Vetted.{written};

use crate::rows::{MAX_ROWS, Rows};
use crate::transition::Transition;
use movetable::{MoveLists, MoveTable};
use process::Move;

// One state more: its moves are the rows of s, in order.
fn add_state_of(lists: &mut MoveLists<MAX_ROWS>, rows: &[Transition], s: u8)
    requires few { length lists.old < 64 }
    requires room { sum_by length lists.old + length (moves_of s rows.now) ≤ 255 }
    ensures { lists.new ≡ lists.old ++ moves_of s rows.now ∷ [] }
{
    lists.add_state();
    for row in rows {
        if row.from == s {
            lists.push(Move::from(*row));
        }
    }
}

impl<'a> Rows<'a> {
    // The moves of all states, from one walk over the rows for each state.
    pub fn index(&self) -> MoveTable<MAX_ROWS>
        ensures { moves_meaning result ≡ meant (written self.now) }
    {
        let mut lists = MoveLists::new();
        for s in 0..self.states {
            add_state_of(&mut lists, self.rows, s);
        }
        MoveTable::of_lists(lists)
    }
}
