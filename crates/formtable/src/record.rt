// The records of a form table.
ghost use Rattle.std.specs.Prelude.{◌≡◌, ok_or};
ghost use Rattle.formtable.specs.declared.fault.FormFault.TheVariants.{Kind};
ghost use Rattle.formtable.specs.Kinds.{kind_of, record_of};

use crate::fault::FormFault;
use process::MAX_STATES;

// How many records a table can have: each is a state.
pub const RECORDS: usize = MAX_STATES as usize;

// A record: a kind and an argument.
// Kept: a record is raw input, in which any number may stand for a kind; what it says is a Form.
#[derive(Clone, Copy, Debug, PartialEq, Eq)]
pub struct Record {
    pub kind: u8,
    pub argument: u16,
}

// What a record says: Do has a motion, Or the place of its right-hand form, Go the place of its rec.
// Kept: forms name one another by place, since a table is a list of records of a stated format.
#[derive(Clone, Copy, Debug, PartialEq, Eq)]
pub enum Form {
    End,
    Do(u16),
    Tau,
    Or(u16),
    Rec,
    Go(u16),
}

impl Record {
    // The empty record, an end.
    pub const EMPTY: Record = Record {
        kind: 0,
        argument: 0,
    };
}

// The form that a record says by its kind, if that is known.
impl TryFrom<Record> for Form {
    type Error = FormFault;

    ghost try_from_gives = { λ r f. f ≡ ok_or (kind_of r.kind r.argument) Kind };

    fn try_from(record: Record) -> Result<Form, FormFault> {
        match record.kind {
            0 => Ok(Form::End),
            1 => Ok(Form::Do(record.argument)),
            2 => Ok(Form::Tau),
            3 => Ok(Form::Or(record.argument)),
            4 => Ok(Form::Rec),
            5 => Ok(Form::Go(record.argument)),
            _ => Err(FormFault::Kind),
        }
    }
}

// The record that says a form.
impl From<Form> for Record {
    ghost from_gives = { λ form r. r ≡ record_of form };

    fn from(form: Form) -> Record {
        let (kind, argument) = match form {
            Form::End => (0, 0),
            Form::Do(motion) => (1, motion),
            Form::Tau => (2, 0),
            Form::Or(right) => (3, right),
            Form::Rec => (4, 0),
            Form::Go(place) => (5, place),
        };
        Record { kind, argument }
    }
}
