// A small process, alone and behind a wrapper that the library does not know.
ghost use Rattle.reach.specs.Shuttle.{shuttle_meaning};
ghost use Rattle.std.proofs.Common.{rules};

use crate::offered::offers_of;
use crate::offers::Offers;
use crate::reach::{after, silent_reach};
use process::{Move, Process, StateSet};
use std::process::Abort;

// State 0 steps in silence to state 1, which moves by motion 3 back to state 0.
// Kept: the tests of search and controller have this process too, since a crate takes on no dependency for its tests alone.
#[derive(Drop)]
struct Shuttle;

impl Process for Shuttle {
    ghost meaning = { λ _. shuttle_meaning };

    ghost limits = { Prim.search rules };

    fn states(&self) -> u8 {
        2
    }

    fn degree(&self, s: u8) -> u8 {
        if s < 2 { 1 } else { 0 }
    }

    fn move_at(&self, s: u8, k: u8) -> Option<Move> {
        match (s, k) {
            (0, 0) => Some(Move {
                motion: 0,
                target: 1,
            }),
            (1, 0) => Some(Move {
                motion: 3,
                target: 0,
            }),
            _ => None,
        }
    }
}

// A process that does as the one inside.
#[derive(Drop)]
struct Wrapper<P> {
    inner: P,
}

impl<P: Process> Process for Wrapper<P> {
    ghost meaning = { λ w. P.meaning w.inner };

    ghost limits = { λ x. P.Process.limits x.inner };

    fn states(&self) -> u8 {
        self.inner.states()
    }

    fn degree(&self, s: u8) -> u8 {
        self.inner.degree(s)
    }

    fn move_at(&self, s: u8, k: u8) -> Option<Move> {
        self.inner.move_at(s, k)
    }
}

// Does state s offer a move by the motion?
fn offers_motion<P: Process>(p: &P, s: u8, motion: u8) -> bool {
    offers_of(p, s).any(|m| m.motion == motion)
}

// What every process with the moves of a Shuttle does.
fn goes_round<P: Process>(rt: &impl Abort, p: &P) {
    assert_eq!(rt; silent_reach(p, StateSet::single(0)).bits, 3);
    assert_eq!(rt; after(p, StateSet::single(0), 3).bits, 1);
    assert_eq!(rt; after(p, StateSet::single(0), 4).bits, 0);
    assert!(rt; offers_motion(p, 0, 3));
    assert!(rt; !offers_motion(p, 1, 0));
}

#[test]
fn alone(rt: HostRuntime) {
    goes_round(&rt, &Shuttle);
}

#[test]
fn wrapped(rt: HostRuntime) {
    goes_round(
        &rt,
        &Wrapper {
            inner: Wrapper { inner: Shuttle },
        },
    );
}

#[test]
fn in_order(rt: HostRuntime) {
    let mut moves = offers_of(&Shuttle, 0);
    assert_eq!(rt;
        moves.next(),
        Some(Move {
            motion: 0,
            target: 1,
        })
    );
    assert_eq!(rt;
        moves.next(),
        Some(Move {
            motion: 3,
            target: 0,
        })
    );
    assert_eq!(rt; moves.next(), None);
}

// What may be copied, kept and handed to another thread.
fn free<T: Copy + Send + Sync + 'static>(value: T) -> T {
    value
}

#[test]
fn by_cursor(rt: HostRuntime) {
    let mut moves = Offers::of(&Shuttle, 0);
    let mut copied = free(moves);
    assert_eq!(rt;
        moves.next(&Shuttle),
        Some(Move {
            motion: 0,
            target: 1,
        })
    );
    assert_eq!(rt;
        moves.next(&Shuttle),
        Some(Move {
            motion: 3,
            target: 0,
        })
    );
    assert_eq!(rt; moves.next(&Shuttle), None);
    assert_eq!(rt;
        copied.next(&Shuttle),
        Some(Move {
            motion: 0,
            target: 1,
        })
    );
}
