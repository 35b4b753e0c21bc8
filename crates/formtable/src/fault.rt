// Why a form table is refused.
ghost use Rattle.formtable.specs.Faults.{form_number};

use common::Numbered;

// The test that a table fails.
#[derive(Clone, Copy, Debug, PartialEq, Eq)]
pub enum FormFault {
    // There are no records, or more than 64.
    Length,
    // A kind is not known, or its argument not allowed.
    Kind,
    // The records are not laid out well.
    Layout,
    // A go does not name a rec around it.
    Unbound,
    // A go is not guarded.
    Unguarded,
}

impl Numbered for FormFault {
    ghost number_of = { form_number };

    fn number(&self) -> u8 {
        match *self {
            FormFault::Length => 21,
            FormFault::Kind => 22,
            FormFault::Layout => 23,
            FormFault::Unbound => 24,
            FormFault::Unguarded => 25,
        }
    }
}
