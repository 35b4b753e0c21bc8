// Small tables, and what vetting says of them.
use crate::table::RowTable;
use crate::transition::Transition;
use common::Numbered;
use process::{Move, Process};
use std::process::Abort;
use std::test::Fail;

fn row(from: u8, motion: u8, to: u8) -> Transition {
    Transition { from, motion, to }
}

// Vetting refuses the table by the number, and leaves one state without rows.
fn refused(rt: &impl Abort, table: &mut RowTable, states: u8, rows: &[Transition], number: u8) {
    let answer = table.vet(states, rows).map_err(|fault| fault.number());
    assert_eq!(rt; answer, Err(number));
    assert_eq!(rt; table.states(), 1);
    assert_eq!(rt; table.degree(0), 0);
}

#[test]
fn refusals(rt: HostRuntime) {
    let mut table = RowTable::new();
    refused(&rt, &mut table, 0, &[], 31);
    refused(&rt, &mut table, 65, &[row(0, 25, 0); 256], 31);
    refused(&rt, &mut table, 64, &[row(0, 25, 0); 256], 32);
    refused(&rt, &mut table, 2, &[row(0, 1, 1), row(2, 1, 0)], 33);
    refused(&rt, &mut table, 2, &[row(0, 1, 2)], 33);
    refused(&rt, &mut table, 2, &[row(0, 25, 1)], 33);
}

// The moves of a state come in the rows' order, a repeat too, and are gone after a refusal.
#[test]
fn in_order(rt: HostRuntime) -> Result<(), Fail> {
    let mut table = RowTable::new();
    table.vet(
        3,
        &[row(2, 24, 0), row(0, 1, 1), row(2, 0, 2), row(2, 24, 0)],
    )?;
    assert_eq!(rt; table.states(), 3);
    assert_eq!(rt; table.degree(0), 1);
    assert_eq!(rt; table.degree(1), 0);
    assert_eq!(rt; table.degree(2), 3);
    assert_eq!(rt;
        table.move_at(2, 0),
        Some(Move {
            motion: 24,
            target: 0,
        })
    );
    assert_eq!(rt;
        table.move_at(2, 1),
        Some(Move {
            motion: 0,
            target: 2,
        })
    );
    assert_eq!(rt;
        table.move_at(2, 2),
        Some(Move {
            motion: 24,
            target: 0,
        })
    );
    assert_eq!(rt; table.move_at(2, 3), None);
    assert_eq!(rt; table.degree(3), 0);
    refused(&rt, &mut table, 3, &[row(3, 1, 0)], 33);
    Ok(())
}

#[test]
fn as_many_rows_as_may_be(rt: HostRuntime) -> Result<(), Fail> {
    let mut table = RowTable::new();
    table.vet(64, &[row(63, 1, 63); 255])?;
    assert_eq!(rt; table.degree(63), 255);
    assert_eq!(rt;
        table.move_at(63, 254),
        Some(Move {
            motion: 1,
            target: 63,
        })
    );
    refused(&rt, &mut table, 64, &[row(63, 1, 63); 256], 32);
    Ok(())
}
