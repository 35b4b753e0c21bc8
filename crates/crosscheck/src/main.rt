// crosscheck: each line of standard input has the lengths of the lists for rows and motions, a plan and a permit; for
// each line, one line with what vetting and search answer. A table is 0 STATES ROWS (FROM MOTION TO).. for a row
// table, or 1 RECORDS (KIND ARGUMENT).. for a form table.
#![tactic(auto)]

use anyhow::anyhow;
use cases::{LineFault, Numbers, RawTable, Spaced, Table, Written, answer_lines};
use certificate::Row;
use common::Numbered;
use desk::{Found, find};
use process::Process;
use std::alloc::Global;

// What a line asks for: ROWS MOTIONS PLAN PERMIT. Of a table it keeps what vetting answers.
#[derive(Drop)]
struct Case {
    rows: u16,
    motions: u16,
    plan: Result<(), u8>,
    permit: Result<(), u8>,
}

impl Case {
    // Reads a case, and vets its tables into these.
    fn read(
        numbers: &mut Numbers,
        plan: &mut Table,
        permit: &mut Table,
    ) -> Result<Case, LineFault> {
        Ok(Case {
            rows: u16::read(numbers)?,
            motions: u16::read(numbers)?,
            plan: RawTable::read(numbers)?.vet_into(plan),
            permit: RawTable::read(numbers)?.vet_into(permit),
        })
    }
}

// How a line that cannot be read is told: no width is told here.
fn told(fault: LineFault) -> anyhow::Error {
    match fault {
        LineFault::TooWide(_) => anyhow!("a number is too large"),
        LineFault::Missing | LineFault::NoMemory => anyhow::Error::from(fault),
    }
}

// What the search of a plan against a permit answers.
fn searched<P: Process, Q: Process>(
    heap: Global,
    case: &Case,
    plan: &P,
    permit: &Q,
) -> anyhow::Result<String> {
    let mut rows = vec![in heap; Row::empty(); case.rows as usize]?;
    let mut motions = vec![in heap; 0u8; case.motions as usize]?;
    match find(plan, permit, &mut rows, &mut motions) {
        Ok(Found::Within(rows)) => Ok(format!(in heap; "within {}", rows.len())?),
        Ok(Found::Beyond(motions)) => Ok(format!(in heap; "beyond{}", Spaced(motions))?),
        Err(fault) => Ok(format!(in heap; "refused {}", fault.number())?),
    }
}

// The same by the kind of the permit.
fn against<P: Process>(
    heap: Global,
    case: &Case,
    plan: &P,
    permit: &Table,
) -> anyhow::Result<String> {
    match permit {
        Table::Rows(permit) => searched(heap, case, plan, permit),
        Table::Forms(permit) => searched(heap, case, plan, permit),
    }
}

// The answer to a line.
// Kept: the kinds are told apart once, since a search that asks the table for its kind at each move takes a quarter more.
fn answered(heap: Global, line: &str) -> anyhow::Result<String> {
    let mut numbers = Numbers::of_short(heap, line)?;
    let mut plan = Table::new();
    let mut permit = Table::new();
    let case = Case::read(&mut numbers, &mut plan, &mut permit).map_err(told)?;
    if let Err(number) = case.plan {
        return Ok(format!(in heap; "plan {number}")?);
    }
    if let Err(number) = case.permit {
        return Ok(format!(in heap; "permit {number}")?);
    }
    match &plan {
        Table::Rows(plan) => against(heap, &case, plan, &permit),
        Table::Forms(plan) => against(heap, &case, plan, &permit),
    }
}

fn main(rt: HostRuntime) -> anyhow::Result<()> {
    answer_lines(rt.alloc(), rt.stdin(), rt.stdout(), answered)
}
