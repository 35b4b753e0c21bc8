// The lists that a report is made with.
ghost use Rattle.std.specs.Prelude.{◌≡◌, codes, replicate, Some};
ghost use Rattle.certificate.specs.Rows.{empty_row};
ghost use Rattle.formtable.specs.Kinds.{row};
ghost use Rattle.report.specs.Finding.{found};
ghost use Rattle.desk.specs.Shown.{Shows, SaysIt};

use certificate::Row;
use formtable::Record;
use process::Process;
use report::report;
use std::error::Error;
use std::fmt;
use writing::OutputFault;

// The bytes of a report are more than the output holds.
#[derive(Clone, Copy, Debug, PartialEq, Eq)]
pub struct DoesNotFit;

impl fmt::Display for DoesNotFit {
    ghost output = { λ _. Some (codes "the report does not fit its buffer") };

    fn fmt<W: fmt::Write>(&self, f: &mut fmt::Formatter<W>) -> fmt::Result {
        write!(f, "the report does not fit its buffer")
    }
}

impl Error for DoesNotFit {}

impl From<OutputFault> for DoesNotFit {
    fn from(_fault: OutputFault) -> DoesNotFit {
        DoesNotFit
    }
}

// Lists for so many records, rows and motions, and so many bytes of output. Each report writes them anew.
#[derive(Drop)]
pub struct Desk<const LIST: usize, const OUTPUT: usize> {
    records: [Record; LIST],
    rows: [Row; LIST],
    motions: [u8; LIST],
    out: [u8; OUTPUT],
}

impl<const LIST: usize, const OUTPUT: usize> Desk<LIST, OUTPUT> {
    // Empty lists.
    pub fn new() -> Self
        ensures records { result.records ≡ replicate LIST (row 0 0) }
        ensures rows { result.rows ≡ replicate LIST empty_row }
        ensures motions { result.motions ≡ replicate LIST 0 }
        ensures out { result.out ≡ replicate OUTPUT 0 }
    {
        Desk {
            records: [Record::EMPTY; LIST],
            rows: [Row::empty(); LIST],
            motions: [0; LIST],
            out: [0; OUTPUT],
        }
    }

    // The report on the plan that a text writes, against a permit.
    pub fn report<Q: Process>(&mut self, text: &[u8], permit: &Q) -> Result<&[u8], DoesNotFit>
        ensures exact { Shows (found (Q.meaning permit.now) text.now (record { records = LIST; rows = LIST; motions = LIST })) OUTPUT result }
        ensures says { SaysIt (Q.meaning permit.now) text.now LIST result }
    {
        let count = report(
            text,
            permit,
            &mut self.records,
            &mut self.rows,
            &mut self.motions,
            &mut self.out,
        )?;
        Ok(&self.out[..count])
    }
}
