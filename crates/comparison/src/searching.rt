// What the search answers, and what its lists then hold.
use crate::admissions::judged;
use crate::vetting::vet_next;
use cases::{Numbers, Spaced, Table, Written};
use certificate::Row;
use common::Numbered;
use desk::{Found, find};
use process::StateSet;
use std::alloc::{AllocError, Global};

// What stands in the lists before a search.
const OLD_ROW: Row = Row {
    state: 9,
    set: StateSet { bits: 9 },
    back: 9,
    by: 9,
};

const OLD_MOTION: u8 = 9;

// A plan beyond the permit: the motions shown.
pub(crate) fn shown(heap: Global, motions: &[u8]) -> Result<String, AllocError> {
    format!(in heap; "beyond{}", Spaced(motions))
}

// A plan beyond the permit: how many motions are shown.
pub(crate) fn counted(heap: Global, motions: &[u8]) -> Result<String, AllocError> {
    format!(in heap; "beyond by {}", motions.len())
}

// The answer to ROWS MOTIONS PLAN PERMIT. The gate is asked about the certificate that is found; a plan beyond the
// permit is told by the function.
pub(crate) fn searched<F: Fn(Global, &[u8]) -> Result<String, AllocError>>(
    heap: Global,
    numbers: &mut Numbers,
    told: F,
) -> anyhow::Result<String>
    requires { F.IsAlwaysCallable told }
{
    let mut rows = vec![in heap; OLD_ROW; u16::read(numbers)? as usize]?;
    let mut motions = vec![in heap; OLD_MOTION; u16::read(numbers)? as usize]?;
    let mut plan = Table::new();
    if let Err(number) = vet_next(numbers, &mut plan)? {
        return Ok(format!(in heap; "plan {number}")?);
    }
    let mut permit = Table::new();
    if let Err(number) = vet_next(numbers, &mut permit)? {
        return Ok(format!(in heap; "permit {number}")?);
    }
    let answer = match find(&plan, &permit, &mut rows, &mut motions) {
        Ok(Found::Within(found)) => {
            let verdict = judged(heap, &plan, &permit, found)?;
            format!(in heap; "within {} {verdict}", found.len())?
        }
        Ok(Found::Beyond(found)) => told(heap, found)?,
        Err(fault) => format!(in heap; "refused {}", fault.number())?,
    };
    let rows_left = rows.iter().filter(|row| **row != Row::empty()).count();
    let motions_left = motions.iter().filter(|m| **m != 0).count();
    Ok(format!(in heap; "{answer}, {rows_left} rows {motions_left} motions")?)
}
