// Small tables, and what vetting says of them.
use crate::examples::{choice_loop, silent_loop};
use crate::record::{Form, Record};
use crate::table::FormTable;
use common::Numbered;
use process::Process;
use std::process::Abort;
use std::test::Fail;

// A record of a kind that is not known.
const STRANGE: Record = Record {
    kind: 6,
    argument: 0,
};

// Vetting refuses the records by the number, and leaves a single end.
fn refused(rt: &impl Abort, table: &mut FormTable, raw: &[Record], number: u8) -> Result<(), Fail> {
    match table.vet(raw) {
        Ok(()) => return Err(Fail::new("accepted")),
        Err(fault) => assert_eq!(rt; fault.number(), number),
    }
    assert_eq!(rt; table.states(), 1);
    assert_eq!(rt; table.degree(0), 0);
    Ok(())
}

#[test]
fn refusals(rt: HostRuntime) -> Result<(), Fail> {
    let mut table = FormTable::new();
    refused(&rt, &mut table, &[], 21)?;
    refused(&rt, &mut table, &[Record::EMPTY; 65], 21)?;
    let beyond = [Form::Do(25), Form::End].map(Record::from);
    refused(&rt, &mut table, &beyond, 22)?;
    refused(&rt, &mut table, &[STRANGE], 22)?;
    let cut = [Form::Do(1)].map(Record::from);
    refused(&rt, &mut table, &cut, 23)?;
    let apart = [Form::Or(3), Form::End, Form::End].map(Record::from);
    refused(&rt, &mut table, &apart, 23)?;
    let unbound = [Form::Do(1), Form::Go(0)].map(Record::from);
    refused(&rt, &mut table, &unbound, 24)?;
    refused(&rt, &mut table, &silent_loop(), 25)
}

// rec x. 1. (x + 2. end) is accepted. Its or moves first silently back into the rec, then by 2 to the end.
#[test]
fn accepted(rt: HostRuntime) -> Result<(), Fail> {
    let mut table = FormTable::new();
    table.vet(&choice_loop())?;
    assert_eq!(rt; table.states(), 6);
    assert_eq!(rt; table.degree(2), 2);
    let left = table.move_at(2, 0).ok_or("no left move")?;
    assert_eq!(rt; (left.motion, left.target), (0, 1));
    let right = table.move_at(2, 1).ok_or("no right move")?;
    assert_eq!(rt; (right.motion, right.target), (2, 5));
    assert!(rt; table.move_at(2, 2).is_none());
    assert_eq!(rt; table.degree(6), 0);
    refused(&rt, &mut table, &silent_loop(), 25)
}
