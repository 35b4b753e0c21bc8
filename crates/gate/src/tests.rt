// A small process as plan and permit, and what the gate says of its certificates.
ghost use Rattle.gate.specs.Yard.{yard_meaning};
ghost use Rattle.std.proofs.Common.{rules};

use crate::admission::check as gate_check;
use certificate::Row;
use common::Numbered;
use process::{Move, Process, StateSet};
use std::process::Abort;
use std::test::Fail;

// State 0 steps in silence to state 1, which moves by motion 3 back to state 0; state 2 is still.
#[derive(Drop)]
struct Yard;

impl Process for Yard {
    ghost meaning = { λ _. yard_meaning };

    ghost limits = { Prim.search rules };

    fn states(&self) -> u8 {
        3
    }

    fn degree(&self, s: u8) -> u8 {
        if s < 2 { 1 } else { 0 }
    }

    fn move_at(&self, s: u8, k: u8) -> Option<Move> {
        match (s, k) {
            (0, 0) => Some(Move {
                motion: 0,
                target: 1,
            }),
            (1, 0) => Some(Move {
                motion: 3,
                target: 0,
            }),
            _ => None,
        }
    }
}

fn row(state: u8, bits: u64) -> Row {
    Row {
        state,
        set: StateSet { bits },
        ..Row::empty()
    }
}

// The gate refuses the rows by the number, at the place.
fn refused(rt: &impl Abort, rows: &[Row], number: u8, place: usize) -> Result<(), Fail> {
    let Err(at) = gate_check(&Yard, &Yard, rows) else {
        return Err(Fail::new("accepted"));
    };
    assert_eq!(rt; at.fault.number(), number);
    assert_eq!(rt; at.place, place);
    Ok(())
}

#[test]
fn accepts(rt: HostRuntime) {
    assert!(rt; gate_check(&Yard, &Yard, &[row(0, 1)]).is_ok());
    assert!(rt; gate_check(&Yard, &Yard, &[row(1, 3), row(0, 1)]).is_ok());
}

#[test]
fn refusals(rt: HostRuntime) -> Result<(), Fail> {
    refused(&rt, &[], 43, 0)?;
    refused(&rt, &[row(0, 1); 1025], 43, 0)?;
    refused(&rt, &[row(0, 1), row(3, 1)], 44, 1)?;
    refused(&rt, &[row(0, 1), row(1, 4), row(0, 0)], 44, 2)?;
    refused(&rt, &[row(0, 8)], 44, 0)?;
    refused(&rt, &[row(1, 1)], 45, 0)?;
    refused(&rt, &[row(0, 1), row(1, 4)], 46, 1)
}
