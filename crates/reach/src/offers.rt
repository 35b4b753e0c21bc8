// The moves that a state offers, one after the other.
ghost use Rattle.std.specs.Prelude.{◌≡◌, ◌<◌};
ghost use Rattle.std.specs.List.{slice_get};
ghost use Rattle.reach.specs.Laws.{OffersExact};
ghost use Rattle.reach.specs.Offers.{moves_in, offers as offers_of, rest, start_of, past_move, past_state, Taken, Fewer, Known};

use crate::reach::silent_reach;
use process::{Move, Process, StateSet};

// A cursor over the moves of a set of states: the state and the move that it is at.
#[derive(Clone, Copy)]
pub struct Offers {
    set: StateSet,
    state: u8,
    at: u8,
}

impl Offers {
    // Before all moves of the set.
    fn start(set: StateSet) -> Self
        ensures { result ≡ start_of set }
    {
        Offers {
            set,
            state: 0,
            at: 0,
        }
    }

    // The moves that state s offers; none for a state that does not exist.
    pub fn of<P: Process>(p: &P, s: u8) -> Self
        ensures value { rest (P.meaning p.now) result ≡ offers_of (P.meaning p.now) s }
        ensures exact { OffersExact (P.meaning p.now) s (rest (P.meaning p.now) result) }
    {
        Offers::start(silent_reach(p, StateSet::single(s)))
    }

    // The move that the cursor is at, if its state is in the set and has one there.
    fn here<P: Process>(self, p: &P) -> Option<Move>
        ensures { result ≡ slice_get (moves_in (P.meaning p.now) self.set.bits self.state) self.at }
    {
        if self.set.contains(self.state) {
            p.move_at(self.state, self.at)
        } else {
            None
        }
    }

    // Past the move that the cursor is at.
    fn pass_move(&mut self)
        requires { self.old.at < 255 }
        ensures { self.new ≡ past_move self.old }
    {
        self.at += 1;
    }

    // To the first move of the next state.
    fn pass_state(&mut self)
        requires { self.old.state < 64 }
        ensures { self.new ≡ past_state self.old }
    {
        self.state += 1;
        self.at = 0;
    }

    // The next move; None exactly when all are given.
    pub fn next<P: Process>(&mut self, p: &P) -> Option<Move>
        ensures taken { Taken (rest (P.meaning p.now) self.old) result (rest (P.meaning p.now) self.new) }
        ensures fewer { Fewer (rest (P.meaning p.now) self.old) result (rest (P.meaning p.now) self.new) }
        ensures known { Known (P.meaning p.now) result }
    {
        while self.state < p.states() {
            if let Some(m) = self.here(p) {
                self.pass_move();
                return Some(m);
            }
            self.pass_state();
        }
        None
    }
}
