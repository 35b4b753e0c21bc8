// Lists of moves, one for each state, in fixed memory.
ghost use Rattle.std.specs.Prelude.{◌≡◌, ◌<◌, ◌^◌, [], ◌∷◌, ◌++◌, length, sum_by};
ghost use Rattle.movetable.specs.Lists.{moves_at, pushed};

use process::{MAX_STATES, Move};
use std::marker::Model;

// What stands where no move does.
const BLANK: Move = Move {
    motion: 0,
    target: 0,
};

// A start for each state, and the end of the last one.
const STARTS: usize = MAX_STATES as usize + 1;

// The moves of state s stand from starts[s] to starts[s + 1]; there is room for ROOM moves in all.
// Kept: the device has no heap, so the lists lie in arrays of a fixed size.
#[derive(Drop)]
pub struct MoveLists<const ROOM: usize> {
    states: u8,
    starts: [u16; STARTS],
    moves: [Move; ROOM],
}

// Clauses see the lists, that of state 0 first.
impl<const ROOM: usize> Model for MoveLists<ROOM> {
    ghost use Rattle.std.specs.Prelude.{List};
    ghost use Rattle.process.specs.declared.moves.Move.{Move};
    ghost use Rattle.movetable.specs.Laid.{lists, Laid};

    ghost Value = { List (List Move) };

    ghost view = { λ t. lists t.starts t.moves t.states };

    ghost invariant = { λ t. Laid ROOM t.states t.starts };
}

impl<const ROOM: usize> MoveLists<ROOM> {
    // No state.
    pub fn new() -> Self
        requires { ROOM < 2 ^ 16 }
        ensures { result ≡ [] }
    {
        MoveLists {
            states: 0,
            starts: [0; STARTS],
            moves: [BLANK; ROOM],
        }
    }

    // How many states there are.
    pub fn states(&self) -> u8
        ensures { result ≡ length self.now }
    {
        let MoveLists { states, .. } = self;
        *states
    }

    // One state more, without moves.
    pub fn add_state(&mut self)
        requires { length self.old < 64 }
        ensures { self.new ≡ self.old ++ [] ∷ [] }
    {
        let end = self.starts[self.states as usize];
        self.states += 1;
        self.starts[self.states as usize] = end;
    }

    // One move more of the last state.
    pub fn push(&mut self, m: Move)
        requires some_state { 0 < length self.old }
        requires room { sum_by length self.old < ROOM }
        ensures { self.new ≡ pushed m self.old }
    {
        let last = self.states as usize;
        let end = self.starts[last];
        self.moves[end as usize] = m;
        self.starts[last] = end + 1;
    }

    // The moves of s; none for a state that does not exist.
    pub fn moves_of(&self, s: u8) -> &[Move]
        ensures { result.now ≡ moves_at self.now s }
    {
        if s >= self.states {
            return &[];
        }
        let all = &self.moves[..];
        let from = self.starts[s as usize];
        let to = self.starts[s as usize + 1];
        &all[from as usize..to as usize]
    }
}
