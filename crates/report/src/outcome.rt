// The call that makes a report out of a text.
ghost use Rattle.std.specs.Prelude.{◌≡◌, length};
ghost use Rattle.common.specs.Faults.{numbered};
ghost use Rattle.writing.specs.Faults.{output_number};
ghost use Rattle.report.specs.Exactly.{Exactly};
ghost use Rattle.report.specs.Finding.{found};
ghost use Rattle.report.specs.Leaves.{Emptied, Leaves};
ghost use Rattle.report.specs.Lines.{Shown};
ghost use Rattle.report.specs.Outcomes.{StandsFor};
ghost use Rattle.report.specs.Says.{Told, Reports};
ghost use Rattle.report.specs.Sizes.{sizes};

use crate::lines::{Found, put_lines};
use crate::refusal::Refusal;
use certificate::Row;
use formtable::{FormTable, Record};
use process::Process;
use reader::read;
use search::certify;
use writing::OutputFault;

// Reads, vets and searches: what the report is to say.
// Kept: the lists stand apart; of one that is lent from a struct behind a `&mut` only the length would be known.
fn searched<'t, Q: Process>(
    text: &'t [u8],
    permit: &Q,
    records: &mut [Record],
    rows: &mut [Row],
    motions: &mut [u8],
) -> Result<Found<'t>, Refusal>
    ensures shown { Shown result (length motions.old) }
    ensures stands { let n = sizes records.old rows.old motions.old in
        StandsFor (found (Q.meaning permit.now) text.now n) n result records.new rows.new motions.new }
    ensures told { let n = sizes records.old rows.old motions.old in
        Told (Q.meaning permit.now) text.now n.records (found (Q.meaning permit.now) text.now n) }
{
    let outline = read(text, records)?;
    let raw = &records[..outline.count];
    let mut plan = FormTable::new();
    plan.vet(raw)?;
    let answer = certify(&plan, permit, rows, motions)?;
    Ok(Found {
        name: outline.name,
        answer,
    })
}

// Empties every list.
fn empty_lists(records: &mut [Record], rows: &mut [Row], motions: &mut [u8])
    ensures { Emptied records.new rows.new motions.new }
{
    records.fill(Record::EMPTY);
    rows.fill(Row::empty());
    motions.fill(0);
}

// Reports on the plan that a text writes, against a permit: the count of the bytes written to `out`, with zeros after
// them. The lists are as reader and search leave them, and all empty after a refusal. Where the bytes do not fit,
// `out` is zeroed and every list is empty.
pub fn report<Q: Process>(
    text: &[u8],
    permit: &Q,
    records: &mut [Record],
    rows: &mut [Row],
    motions: &mut [u8],
    out: &mut [u8],
) -> Result<usize, OutputFault>
    ensures leaves { Leaves result out.new records.new rows.new motions.new }
    ensures exact { let n = sizes records.old rows.old motions.old in
        Exactly (found (Q.meaning permit.now) text.now n) n (length out.old) (numbered output_number result) out.new records.new rows.new motions.new }
    ensures says { Reports (Q.meaning permit.now) text.now (length records.old) (numbered output_number result) out.new }
{
    let found = searched(text, permit, records, rows, motions);
    let written = put_lines(out, found, motions);
    if found.is_err() || written.is_err() {
        empty_lists(records, rows, motions);
    }
    written
}
