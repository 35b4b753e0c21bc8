// What a search finds.
ghost use Rattle.std.specs.Prelude.{length};
ghost use Rattle.gate.specs.Follow.{plain};
ghost use Rattle.search.specs.Rule.{searched};
ghost use Rattle.desk.specs.Found.{Finds};

use certificate::Row;
use process::Process;
use search::{Answer, SearchFault, certify};

// The certificate, or the motions of a shortest order that the permit lacks: parts of the caller's lists.
#[derive(Clone, Copy)]
pub enum Found<'a> {
    Within(&'a [Row]),
    Beyond(&'a [u8]),
}

// Searches for a trace of the plan that the permit lacks.
pub fn find<'a, P: Process, Q: Process>(
    plan: &P,
    permit: &Q,
    rows: &'a mut [Row],
    motions: &'a mut [u8],
) -> Result<Found<'a>, SearchFault>
    ensures { Finds (searched plain (P.meaning plan.now) (Q.meaning permit.now) (length rows.old) (length motions.old)) result }
{
    match certify(plan, permit, rows, motions)? {
        Answer::Within(count) => Ok(Found::Within(&rows[..count])),
        Answer::Beyond(count) => Ok(Found::Beyond(&motions[..count])),
    }
}
