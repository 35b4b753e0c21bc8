// What is asked: where the rule leads along the moves of the plan.
ghost use Rattle.std.specs.Prelude.{◌≡◌};
ghost use Rattle.std.specs.Option.{option_map};
ghost use Rattle.reach.specs.Offers.{offers, rest_of};

use crate::rule::Rule;
use process::{Move, Process, StateSet};
use reach::{OffersOf, offers_of};

// The moves of the plan, followed by the rule.
#[derive(Clone, Copy)]
pub(crate) struct Question<'a, P, F> {
    pub plan: &'a P,
    pub rule: &'a F,
}

impl<'a, P: Process, F: Rule> Question<'a, P, F> {
    // The set of the first row.
    pub(crate) fn start(&self) -> StateSet
        ensures { result.bits ≡ F.begins self.now.rule.now }
    {
        self.rule.start()
    }

    // The moves that a row offers, by its state.
    pub(crate) fn offers(&self, state: u8) -> OffersOf<'a, P>
        ensures { rest_of P.meaning result ≡ offers (P.meaning self.now.plan.now) state }
    {
        offers_of(self.plan, state)
    }

    // The set that a move leads to from a row's set, or none.
    pub(crate) fn follow(&self, set: StateSet, m: Move) -> Option<StateSet>
        ensures { option_map (λ s. s.bits) result ≡ F.leads self.now.rule.now set.bits m }
    {
        self.rule.follow(set, m)
    }
}
