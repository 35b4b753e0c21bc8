// The vetted table.
ghost use Rattle.std.specs.Prelude.{◌≡◌, ◌≤◌, true, length, take};
ghost use Rattle.formtable.specs.Vet.{vetted};

use crate::record::{RECORDS, Record};

pub mod methods;

// A table whose first len records have passed vetting.
// Kept: the device has no heap, so a table of any length lies in fixed memory.
#[derive(Drop)]
pub struct FormTable {
    records: [Record; RECORDS],
    len: usize,
    ghost short: { len ≤ 64 },
    ghost full: { length (take len records) ≡ len },
    ghost passed: { vetted (take len records) ≡ true },
}
