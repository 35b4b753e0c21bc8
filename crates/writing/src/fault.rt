// Why nothing more can be written.
ghost use Rattle.writing.specs.Faults.{output_number};

use common::Numbered;

// Kept: one case is an enum all the same, since every fault is one and has a number.
#[derive(Clone, Copy, Debug, PartialEq, Eq)]
pub enum OutputFault {
    // The list is too short.
    Short,
}

impl Numbered for OutputFault {
    ghost number_of = { output_number };

    fn number(&self) -> u8 {
        match self {
            OutputFault::Short => 52,
        }
    }
}
