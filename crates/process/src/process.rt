// The interface of every process.
ghost use Rattle.std.specs.Prelude.{◌≡◌, length};
ghost use Rattle.std.specs.List.{slice_get};
ghost use Rattle.process.specs.Meaning.{Proc, Limits};

use crate::moves::Move;

// A process means a number of states and, for each state, a list of moves. State 0 is the first.
pub trait Process {
    ghost meaning: { Self → Proc };

    // How many states there are.
    fn states(&self) -> u8
        ensures { result ≡ (meaning self.now).states };

    // How many moves state s has: 0 for a state that does not exist.
    fn degree(&self, s: u8) -> u8
        ensures { result ≡ length ((meaning self.now).moves s) };

    // Move k of state s: None exactly when there is none.
    fn move_at(&self, s: u8, k: u8) -> Option<Move>
        ensures { result ≡ slice_get ((meaning self.now).moves s) k };

    ghost limits: { (x : Self) → Limits (meaning x) };
}
