// Plans that ask for admission, and what the gate answers.
ghost use Rattle.std.specs.Prelude.{IfOk};
ghost use Rattle.cases.specs.Raw.{ReadsVetted};
ghost use Rattle.comparison.specs.Tables.{ReadsAdmission};

use crate::vetting::vet_next;
use anyhow::anyhow;
use cases::{Numbers, Shown, Table, Written};
use certificate::Row;
use gate::check;
use std::alloc::Global;

// A plan with a permit and the certificate that it is within it.
#[derive(Drop)]
pub struct Admission {
    pub plan: Table,
    pub permit: Table,
    pub rows: Vec<Row>,
}

// Vets the table that stands next into this one. One that is refused is an error.
fn vet_good(numbers: &mut Numbers, table: &mut Table) -> anyhow::Result<()>
    ensures { IfOk result (λ _. ReadsVetted numbers.old table.new numbers.new) }
{
    match vet_next(numbers, table)? {
        Ok(()) => Ok(()),
        Err(_) => Err(anyhow!("a table is refused")),
    }
}

// PLAN PERMIT CERTIFICATE
impl Written for Admission {
    type Fault = anyhow::Error;

    ghost Reads = { ReadsAdmission };

    // an error here is only text, which says nothing of the numbers
    ghost Lacks = { λ _ _. Unit {0} };

    fn read(numbers: &mut Numbers) -> anyhow::Result<Admission> {
        let mut plan = Table::new();
        vet_good(numbers, &mut plan)?;
        let mut permit = Table::new();
        vet_good(numbers, &mut permit)?;
        let rows = Vec::read(numbers)?;
        Ok(Admission { plan, permit, rows })
    }
}

// What the gate says of the rows.
pub(crate) fn judged(
    heap: Global,
    plan: &Table,
    permit: &Table,
    rows: &[Row],
) -> anyhow::Result<String> {
    match check(plan, permit, rows) {
        Ok(()) => Ok(String::from_str(heap, "accepted")?),
        Err(at) => Ok(format!(in heap; "refused {}", Shown(&at))?),
    }
}

// The answer to PLAN PERMIT CERTIFICATE.
// Kept: a `?` would lay the two tables, some 3 KB, on the stack twice more.
pub(crate) fn gated(heap: Global, numbers: &mut Numbers) -> anyhow::Result<String> {
    match Admission::read(numbers) {
        Ok(asked) => judged(heap, &asked.plan, &asked.permit, &asked.rows),
        Err(error) => Err(error),
    }
}
