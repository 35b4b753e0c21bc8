// The call that makes a certificate.
ghost use Rattle.std.specs.Prelude.{◌≡◌, length};
ghost use Rattle.common.specs.Faults.{numbered};
ghost use Rattle.gate.specs.Follow.{plain};
ghost use Rattle.search.specs.Answers.{search_number, outcome_of, Counted};
ghost use Rattle.search.specs.Rule.{ruled, search_for};
ghost use Rattle.search.specs.Search.{search_by};
ghost use Rattle.search.specs.Theorems.{Exactly, Refusals, Decided, Tells};

use crate::answer::{Answer, SearchFault};
use crate::listing::{Listed, Stop};
use crate::question::Question;
use crate::rule::{Permit, Rule};
use crate::shown::WayBack;
use certificate::Row;
use common::fill_from;
use process::Process;

// Lists rows by a rule, and shows the motions where the listing ends beyond.
fn search_by<P: Process, F: Rule>(
    asked: &Question<'_, P, F>,
    rows: &mut [Row],
    motions: &mut [u8],
) -> Result<Answer, SearchFault>
    ensures value { outcome_of result rows.new motions.new ≡ search_by (ruled (P.meaning asked.now.plan.now) (F.begins asked.now.rule.now) (F.leads asked.now.rule.now)) (length rows.old) (length motions.old) }
    ensures counted { Counted result (length rows.old) (length motions.old) }
{
    let mut listed = Listed::new(rows);
    match listed.list_all(asked) {
        Ok(()) => Ok(Answer::Within(listed.as_slice().len())),
        Err(Stop::Lacking { row, motion }) => {
            let way = WayBack::new(listed.as_slice(), row);
            Ok(Answer::Beyond(way.show(motion, motions)?))
        }
        Err(Stop::Full) => Err(SearchFault::RowsFull),
    }
}

// Searches for a trace of the plan that the permit lacks.
// Within: the rows are the certificate and the motions are zero. Beyond: the motions are a shortest such trace and
// the rows are empty. Refused: the rows are empty and the motions zero.
pub fn certify<P: Process, Q: Process>(
    plan: &P,
    permit: &Q,
    rows: &mut [Row],
    motions: &mut [u8],
) -> Result<Answer, SearchFault>
    ensures exact { Exactly plain (P.meaning plan.now) (Q.meaning permit.now) (length rows.old) (length motions.old) (numbered search_number result) rows.new motions.new }
    ensures refusals { Refusals (search_for plain (P.meaning plan.now) (Q.meaning permit.now)) (length rows.old) (length motions.old) (numbered search_number result) }
    ensures decided { Decided (P.meaning plan.now) (Q.meaning permit.now) (numbered search_number result) }
    ensures tells { Tells plain (P.meaning plan.now) (Q.meaning permit.now) (numbered search_number result) rows.new motions.new }
{
    let rule = Permit { process: permit };
    let answer = search_by(&Question { plan, rule: &rule }, rows, motions);
    let (listed, shown) = answer.map_or((0, 0), Answer::counts);
    fill_from(rows, listed, Row::empty());
    fill_from(motions, shown, 0);
    answer
}
