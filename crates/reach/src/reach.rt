// The silent reach of a set of states, and its After by a motion.
ghost use Rattle.std.specs.Prelude.{◌≡◌, bit_or};
ghost use Rattle.reach.specs.Laws.{Least, ReachExact, AfterExact, AfterLaws};
ghost use Rattle.reach.specs.Reach.{targets, image, silent_reach, after as after_of};

use process::{Process, SILENT, StateSet, moves_of};

// `onto` with the targets of state s by the motion.
fn with_targets<P: Process>(p: &P, s: u8, motion: u8, onto: StateSet) -> StateSet
    ensures { result.bits ≡ bit_or onto.bits (targets motion ((P.meaning p.now).moves s)) }
{
    moves_of(p, s)
        .filter(|m| m.motion == motion)
        .fold(onto, |all, m| all.insert(m.target))
}

// `onto` with the targets of the states of `from` by the motion.
fn with_image<P: Process>(p: &P, from: StateSet, motion: u8, onto: StateSet) -> StateSet
    ensures { result.bits ≡ bit_or onto.bits (image (P.meaning p.now) motion from.bits) }
{
    (0..p.states())
        .filter(|s| from.contains(*s))
        .fold(onto, |all, s| with_targets(p, s, motion, all))
}

// The states that silent steps reach from the set: round by round, until one adds nothing.
pub fn silent_reach<P: Process>(p: &P, set: StateSet) -> StateSet
    ensures value { result.bits ≡ silent_reach (P.meaning p.now) set.bits }
    ensures least { Least (P.meaning p.now) set.bits result.bits }
    ensures exact { ReachExact (P.meaning p.now) set.bits result.bits }
{
    let mut all = set;
    // Kept: a fold over the rounds could not stop at the one that adds nothing.
    for _round in 0..p.states() {
        let more = with_image(p, all, SILENT, all);
        if more == all {
            return all;
        }
        all = more;
    }
    all
}

// After: the states that the motion leads to from the silent reach of the set.
pub fn after<P: Process>(p: &P, set: StateSet, motion: u8) -> StateSet
    ensures value { result.bits ≡ after_of (P.meaning p.now) set.bits motion }
    ensures exact { AfterExact (P.meaning p.now) set.bits motion result.bits }
    ensures laws { AfterLaws (P.meaning p.now) set.bits motion result.bits }
{
    let from = silent_reach(p, set);
    with_image(p, from, motion, StateSet::empty())
}
