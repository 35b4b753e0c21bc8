// The records of tables and the rows of certificates, as a line writes them.
ghost use Rattle.std.specs.Prelude.{[], ◌∷◌};
ghost use Rattle.cases.specs.Reading.{ReadsRow, ReadsRecord, ReadsCertified, LacksFields};

use crate::numbers::{LineFault, Numbers, Written};
use certificate::Row;
use formtable::Record;
use process::StateSet;
use rowtable::Transition;

// FROM MOTION TO
impl Written for Transition {
    type Fault = LineFault;

    ghost Reads = { ReadsRow };

    ghost Lacks = { LacksFields (8 ∷ 8 ∷ 8 ∷ []) };

    fn read(numbers: &mut Numbers) -> Result<Transition, LineFault> {
        Ok(Transition {
            from: u8::read(numbers)?,
            motion: u8::read(numbers)?,
            to: u8::read(numbers)?,
        })
    }
}

// KIND ARGUMENT
impl Written for Record {
    type Fault = LineFault;

    ghost Reads = { ReadsRecord };

    ghost Lacks = { LacksFields (8 ∷ 16 ∷ []) };

    fn read(numbers: &mut Numbers) -> Result<Record, LineFault> {
        Ok(Record {
            kind: u8::read(numbers)?,
            argument: u16::read(numbers)?,
        })
    }
}

// STATE SET BACK BY
impl Written for Row {
    type Fault = LineFault;

    ghost Reads = { ReadsCertified };

    ghost Lacks = { LacksFields (8 ∷ 64 ∷ 16 ∷ 8 ∷ []) };

    fn read(numbers: &mut Numbers) -> Result<Row, LineFault> {
        Ok(Row {
            state: u8::read(numbers)?,
            set: StateSet {
                bits: u64::read(numbers)?,
            },
            back: u16::read(numbers)?,
            by: u8::read(numbers)?,
        })
    }
}
