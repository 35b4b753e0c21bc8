// What a process allows after some motions.
ghost use Rattle.std.specs.Prelude.{◌≡◌};
ghost use Rattle.process.specs.Sets.{only};
ghost use Rattle.reach.specs.Reach.{after_all};
ghost use Rattle.hints.specs.Allowed.{allowed, allowed_from, allowed_list, Allows};

use process::{LAST_MOTION, Process, StateSet};
use reach::after;
use std::array;

// How many motions there are.
const MOTIONS: usize = LAST_MOTION as usize;

// The states in which the process can be right after the motions.
pub fn after_motions<P: Process>(p: &P, motions: &[u8]) -> StateSet
    ensures { result.bits ≡ after_all (P.meaning p.now) (only 0) motions.now }
{
    motions
        .iter()
        .fold(StateSet::single(0), |set, m| after(p, set, *m))
}

// Does the process do the motion from a state of the set?
fn allows<P: Process>(p: &P, set: StateSet, motion: u8) -> bool
    ensures { result ≡ allowed (P.meaning p.now) set.bits motion }
{
    !after(p, set, motion).is_empty()
}

// Which motions the process does from the set, the first of them motion 1.
fn allowed_from<P: Process>(p: &P, set: StateSet) -> [bool; MOTIONS]
    ensures { result ≡ allowed_from (P.meaning p.now) set.bits }
{
    array::from_fn(|i| allows(p, set, i as u8 + 1))
}

// Which motions the process allows after those: the first is said of motion 1, the last of motion 24.
pub fn allowed_after<P: Process>(p: &P, motions: &[u8]) -> [bool; MOTIONS]
    ensures exact { result ≡ allowed_list (P.meaning p.now) motions.now }
    ensures says { Allows (P.meaning p.now) motions.now result }
{
    allowed_from(p, after_motions(p, motions))
}
