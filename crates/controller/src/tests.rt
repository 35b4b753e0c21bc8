// Calls on a controller with a small plan.
ghost use Rattle.reach.specs.Shuttle.{shuttle_meaning};
ghost use Rattle.std.proofs.Common.{rules};

use crate::controller::Controller;
use crate::fault::DriverFault;
use certificate::Row;
use common::Numbered;
use process::{Move, Process, StateSet};
use std::test::Fail;

// State 0 steps in silence to state 1, which moves by motion 3 back to state 0.
#[derive(Drop)]
struct Shuttle;

impl Process for Shuttle {
    ghost meaning = { λ _. shuttle_meaning };

    ghost limits = { Prim.search rules };

    fn states(&self) -> u8 {
        2
    }

    fn degree(&self, s: u8) -> u8 {
        if s < 2 { 1 } else { 0 }
    }

    fn move_at(&self, s: u8, k: u8) -> Option<Move> {
        match (s, k) {
            (0, 0) => Some(Move {
                motion: 0,
                target: 1,
            }),
            (1, 0) => Some(Move {
                motion: 3,
                target: 0,
            }),
            _ => None,
        }
    }
}

// The certificate of the plan within itself.
const ROWS: [Row; 1] = [Row {
    state: 0,
    set: StateSet { bits: 1 },
    back: 0,
    by: 0,
}];

// The answer of a call, its fault told by number.
fn told<T>(answer: Result<T, DriverFault>) -> Result<T, u8> {
    answer.map_err(|fault| fault.number())
}

// The answer to an admit, its fault told by number and place.
fn admitted(c: &mut Controller, rows: &[Row]) -> Result<(), (u8, usize)> {
    c.admit(&Shuttle, &Shuttle, rows)
        .map_err(|at| (at.fault.number(), at.place))
}

// Releases the motion and hands the slip back at once: the number of the slip.
fn go(c: &mut Controller, motion: u8) -> Result<u32, DriverFault> {
    let slip = c.release(motion)?;
    let number = slip.number();
    c.done(slip)?;
    Ok(number)
}

#[test]
fn in_order(rt: HostRuntime) {
    let mut c = Controller::new();
    assert_eq!(rt; told(c.start()), Err(63));
    assert_eq!(rt; told(c.rest()), Err(63));
    assert_eq!(rt; admitted(&mut c, &[]), Err((43, 0)));
    assert_eq!(rt; admitted(&mut c, &ROWS), Ok(()));
    assert_eq!(rt; told(go(&mut c, 3)), Err(63));
    assert!(rt; c.start().is_ok());
    assert_eq!(rt; told(c.start()), Err(61));
    assert_eq!(rt; admitted(&mut c, &ROWS), Err((61, 0)));
    assert_eq!(rt; told(go(&mut c, 0)), Err(64));
    assert_eq!(rt; told(go(&mut c, 25)), Err(64));
    assert_eq!(rt; told(go(&mut c, 4)), Err(68));
    assert_eq!(rt; told(go(&mut c, 3)), Ok(1));
    assert_eq!(rt; told(go(&mut c, 3)), Ok(2));
    assert!(rt; c.rest().is_ok());
    assert_eq!(rt; told(c.rest()), Err(63));
}

// A slip from before a rest is stale in the next run, and so is one that came to nothing.
#[test]
fn stale_slips(rt: HostRuntime) -> Result<(), Fail> {
    let mut c = Controller::new();
    assert_eq!(rt; admitted(&mut c, &ROWS), Ok(()));
    assert!(rt; c.start().is_ok());
    let Ok(old) = c.release(3) else {
        return Err(Fail::new("denied"));
    };
    let rested = c.rest().is_ok();
    let started = c.start().is_ok();
    let Ok(new) = c.release(3) else {
        let _ = c.done(old);
        return Err(Fail::new("denied"));
    };
    let held = go(&mut c, 3);
    let taken_old = c.done(old);
    let taken_new = c.failed(new);
    assert!(rt; rested && started);
    assert_eq!(rt; told(held), Err(65));
    assert_eq!(rt; told(taken_old), Err(66));
    assert!(rt; taken_new.is_ok());
    assert!(rt; c.start().is_ok());
    Ok(())
}
