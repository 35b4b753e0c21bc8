// Judging plans against a permit: reading, vetting and the search.
ghost use Rattle.std.specs.Prelude.{◌≡◌, [], ◌∷◌};
ghost use Rattle.gate.specs.Follow.{plain};
ghost use Rattle.reader.specs.Reading.{read_plan};
ghost use Rattle.search.specs.Rule.{searched};
ghost use Rattle.task.specs.Findings.{Loads, Searches, certificate_in};
ghost use Rattle.task.specs.declared.judging.Finding.TheVariants.{Read, Vetted, Searched};
ghost use Rattle.task.specs.declared.judging.Refusal.TheVariants.{Text, Form, Row as Rows, Search};

use certificate::Row;
use common::Located;
use formtable::{FormFault, FormTable, Record};
use lexer::TextFault;
use process::Process;
use reader::read;
use rowtable::RowFault;
use search::{Answer, SearchFault, certify};

// How many records a plan's text may fill.
const RECORDS: usize = 16;

// How many rows a certificate may have here.
const ROWS: usize = 16;

// How many motions are shown of a plan that is beyond the permit.
pub(crate) const SHOWN: usize = 8;

// What was found on the way to a certificate.
#[derive(Clone, Copy, Debug, PartialEq, Eq)]
pub enum Finding {
    // So many records were read.
    Read(usize),
    // The table is vetted.
    Vetted,
    // What the search came to.
    Searched(Answer),
}

// The findings on a plan of so many records by its text.
pub(crate) fn found(records: usize, answer: Answer) -> [Finding; 3]
    ensures { result ≡ Read records ∷ Vetted ∷ Searched answer ∷ [] }
{
    [
        Finding::Read(records),
        Finding::Vetted,
        Finding::Searched(answer),
    ]
}

// Why a plan is not judged.
#[derive(Clone, Copy, Debug, PartialEq, Eq)]
pub(crate) enum Refusal {
    Text(Located<TextFault>),
    Form(FormFault),
    Row(RowFault),
    Search(SearchFault),
}

impl From<Located<TextFault>> for Refusal {
    ghost from_gives = { λ e r. r ≡ Text e };

    fn from(at: Located<TextFault>) -> Self {
        Refusal::Text(at)
    }
}

impl From<FormFault> for Refusal {
    ghost from_gives = { λ e r. r ≡ Form e };

    fn from(fault: FormFault) -> Self {
        Refusal::Form(fault)
    }
}

impl From<RowFault> for Refusal {
    ghost from_gives = { λ e r. r ≡ Rows e };

    fn from(fault: RowFault) -> Self {
        Refusal::Row(fault)
    }
}

impl From<SearchFault> for Refusal {
    ghost from_gives = { λ e r. r ≡ Search e };

    fn from(fault: SearchFault) -> Self {
        Refusal::Search(fault)
    }
}

// Reads a plan and vets it: how many records were read, and the table that holds them.
pub(crate) fn load(text: &[u8]) -> Result<(usize, FormTable), Refusal>
    ensures { Loads (read_plan text.now 16) result }
{
    let mut records = [Record::EMPTY; RECORDS];
    let count = read(text, &mut records)?.count;
    let mut plan = FormTable::new();
    plan.vet(&records[..count])?;
    Ok((count, plan))
}

// What the search for a certificate came to, with the lists that it left.
// Kept: lists of a fixed length with their count in the answer, since a library uses no heap.
#[derive(Clone, Copy)]
pub(crate) struct Judged {
    pub answer: Answer,
    pub rows: [Row; ROWS],
    pub motions: [u8; SHOWN],
}

impl Judged {
    // Searches for a certificate.
    pub(crate) fn of<P: Process, Q: Process>(plan: &P, permit: &Q) -> Result<Self, SearchFault>
        ensures { Searches (searched plain (P.meaning plan.now) (Q.meaning permit.now) 16 8) result }
    {
        let mut rows = [Row::empty(); ROWS];
        let mut motions = [0; SHOWN];
        let answer = certify(plan, permit, &mut rows, &mut motions)?;
        Ok(Judged {
            answer,
            rows,
            motions,
        })
    }

    // The rows of the certificate; none where the plan is beyond the permit.
    pub(crate) fn certificate(&self) -> &[Row]
        ensures { result.now ≡ certificate_in self.now.answer self.now.rows }
    {
        match self.answer {
            Answer::Within(count) => self.rows.get(..count).unwrap_or(&self.rows),
            Answer::Beyond(_) => &[],
        }
    }
}
