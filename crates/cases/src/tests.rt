// What a line writes, read where there is memory for it.
use crate::numbers::{LineFault, Numbers, Written};
use crate::raw::RawTable;
use certificate::Row;
use process::{Process, moves_of};
use std::test::Fail;

#[test]
fn numbers_of_a_line(rt: HostRuntime) -> Result<(), Fail> {
    let mut numbers = Numbers::of::<u64>(rt.alloc(), " 7  70000 300 ")?;
    assert_eq!(rt; u8::read(&mut numbers), Ok(7));
    assert_eq!(rt; u16::read(&mut numbers), Err(LineFault::TooWide(16)));
    assert_eq!(rt; u16::read(&mut numbers), Ok(300));
    assert_eq!(rt; u8::read(&mut numbers), Err(LineFault::Missing));
    assert!(rt; Numbers::of::<u16>(rt.alloc(), "7 70000").is_err());
    let mut short = Numbers::of_short(rt.alloc(), "300 7")?;
    assert_eq!(rt; u16::read(&mut short), Ok(300));
    assert!(rt; Numbers::of_short(rt.alloc(), "7 70000").is_err());
    Ok(())
}

#[test]
fn tables_and_certificates(rt: HostRuntime) -> Result<(), Fail> {
    let line = "0 2 1 0 5 1  1 2 1 3 0 0  2 4 9 1 2 5 8 0 3";
    let mut numbers = Numbers::of::<u64>(rt.alloc(), line)?;
    for motion in [5, 3] {
        match RawTable::read(&mut numbers)?.vet() {
            Ok(table) => {
                assert_eq!(rt; table.states(), 2);
                assert!(rt; moves_of(&table, 0).all(|m| m.motion == motion && m.target == 1));
            }
            Err(_) => return Err(Fail::new("refused")),
        }
    }
    let rows = Vec::<Row>::read(&mut numbers)?;
    assert_eq!(rt; rows.len(), 2);
    assert_eq!(rt; rows[1].set.bits, 8);
    Ok(())
}

#[test]
fn refused(rt: HostRuntime) -> Result<(), Fail> {
    let mut numbers = Numbers::of::<u64>(rt.alloc(), "0 2 1 0 5 2")?;
    match RawTable::read(&mut numbers)?.vet() {
        Ok(_) => return Err(Fail::new("accepted")),
        Err(refused) => {
            assert_eq!(rt; refused.number, 33);
            assert_eq!(rt; refused.left.states(), 1);
        }
    }
    Ok(())
}
