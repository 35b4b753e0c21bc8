// The moves of a state, one after the other.
ghost use Rattle.std.specs.Prelude.{◌≡◌};
ghost use Rattle.std.specs.Iterator.{YieldsFirst, item_count};
ghost use Rattle.process.specs.Moves.{left_of};

use crate::moves::Move;
use crate::process::Process;

// The moves of a state that are not yet given, from the one with this place on.
#[derive_where(Clone, Copy)]
pub struct MovesOf<'a, P> {
    process: &'a P,
    state: u8,
    at: u8,
}

// All moves of the state: none for a state that does not exist.
pub fn moves_of<P: Process>(process: &P, state: u8) -> MovesOf<'_, P>
    ensures { left_of P.meaning result ≡ (P.meaning process.now).moves state }
{
    MovesOf {
        process,
        state,
        at: 0,
    }
}

impl<'a, P: Process> Iterator for MovesOf<'a, P> {
    type Item = Move;

    ghost next_gives = { YieldsFirst (left_of P.meaning) };

    ghost remaining = { item_count (left_of P.meaning) };

    fn next(&mut self) -> Option<Move> {
        let m = self.process.move_at(self.state, self.at)?;
        self.at += 1;
        Some(m)
    }
}
