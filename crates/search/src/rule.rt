// How a listing follows the moves of the plan.
ghost use Rattle.std.specs.Prelude.{◌≡◌, ℕ, Option};
ghost use Rattle.std.specs.Option.{option_map};
ghost use Rattle.process.specs.declared.moves.Move.{Move};
ghost use Rattle.gate.specs.Follow.{plain};
ghost use Rattle.search.specs.Rule.{leads_to};

use process::{Move as Step, Process, StateSet};
use reach::after;

// A rule says the set of the first row, and the set that a move leads to from a row's set, or that there is none.
pub trait Rule {
    ghost begins: { Self → ℕ };

    ghost leads: { Self → ℕ → Move → Option ℕ };

    fn start(&self) -> StateSet
        ensures { result.bits ≡ begins self.now };

    fn follow(&self, set: StateSet, step: Step) -> Option<StateSet>
        ensures { option_map (λ s. s.bits) result ≡ leads self.now set.bits step };
}

// The rule by which the permit is followed: the set After a motion, and none where it is empty.
#[derive(Clone, Copy)]
pub struct Permit<'a, Q> {
    pub process: &'a Q,
}

impl<'a, Q: Process> Rule for Permit<'a, Q> {
    ghost begins = { λ f. plain.start (Q.meaning f.process.now) };

    ghost leads = { λ f. leads_to plain (Q.meaning f.process.now) };

    fn start(&self) -> StateSet {
        StateSet::single(0)
    }

    fn follow(&self, set: StateSet, step: Step) -> Option<StateSet> {
        let next = after(self.process, set, step.motion);
        (!next.is_empty()).then_some(next)
    }
}
