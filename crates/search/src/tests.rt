// Small processes as plan and permit, and what the search finds.
ghost use Rattle.reach.specs.Shuttle.{shuttle_meaning};
ghost use Rattle.search.specs.Still.{still_meaning};
ghost use Rattle.std.proofs.Common.{rules};

use crate::answer::Answer;
use crate::inclusion::certify;
use certificate::Row;
use common::Numbered;
use process::{Move, Process};

// State 0 steps in silence to state 1, which moves by motion 3 back to state 0.
#[derive(Drop)]
struct Shuttle;

impl Process for Shuttle {
    ghost meaning = { λ _. shuttle_meaning };

    ghost limits = { Prim.search rules };

    fn states(&self) -> u8 {
        2
    }

    fn degree(&self, s: u8) -> u8 {
        if s < 2 { 1 } else { 0 }
    }

    fn move_at(&self, s: u8, k: u8) -> Option<Move> {
        match (s, k) {
            (0, 0) => Some(Move {
                motion: 0,
                target: 1,
            }),
            (1, 0) => Some(Move {
                motion: 3,
                target: 0,
            }),
            _ => None,
        }
    }
}

// One state, without moves.
#[derive(Drop)]
struct Still;

impl Process for Still {
    ghost meaning = { λ _. still_meaning };

    ghost limits = { Prim.search rules };

    fn states(&self) -> u8 {
        1
    }

    fn degree(&self, _s: u8) -> u8 {
        0
    }

    fn move_at(&self, _s: u8, _k: u8) -> Option<Move> {
        None
    }
}

// A row that is not empty, so that a test sees it emptied.
fn used_row() -> Row {
    Row {
        by: 9,
        ..Row::empty()
    }
}

#[test]
fn within(rt: HostRuntime) {
    let mut rows = [used_row(); 2];
    let mut motions = [9; 2];
    assert_eq!(rt;
        certify(&Shuttle, &Shuttle, &mut rows, &mut motions),
        Ok(Answer::Within(1))
    );
    assert_eq!(rt; rows[0].set.bits, 1);
    assert_eq!(rt; rows[1].by, 0);
    assert_eq!(rt; motions[0], 0);
}

#[test]
fn beyond(rt: HostRuntime) {
    let mut rows = [used_row(); 2];
    let mut motions = [9; 2];
    assert_eq!(rt;
        certify(&Shuttle, &Still, &mut rows, &mut motions),
        Ok(Answer::Beyond(1))
    );
    assert_eq!(rt; rows[0].by, 0);
    assert_eq!(rt; motions[0], 3);
    assert_eq!(rt; motions[1], 0);
}

#[test]
fn refused(rt: HostRuntime) {
    let mut rows = [used_row(); 1];
    let mut motions = [9; 1];
    assert_eq!(rt;
        certify(&Shuttle, &Shuttle, &mut rows[0..0], &mut motions).map_err(|fault| fault.number()),
        Err(41)
    );
    assert_eq!(rt;
        certify(&Shuttle, &Still, &mut rows, &mut motions[0..0]).map_err(|fault| fault.number()),
        Err(42)
    );
}
