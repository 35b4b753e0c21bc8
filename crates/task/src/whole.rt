// The task: a plan from its text, a plan of rows, and a plan that is beyond the permit.
ghost use Rattle.std.specs.Prelude.{◌≡◌, [], List, ◌++◌, Ok};
ghost use Rattle.process.specs.Meaning.{Proc};
ghost use Rattle.certificate.specs.declared.Row.{Row as ARow};
ghost use Rattle.controller.specs.Accounts.{Accounts};
ghost use Rattle.controller.specs.Histories.Call.{admit as an_admit};
ghost use Rattle.controller.specs.Record.{factory};
ghost use Rattle.controller.specs.View.{view};
ghost use Rattle.rowtable.specs.Rows.{meant};
ghost use Rattle.rowtable.specs.Table.{contents};
ghost use Rattle.bench.specs.Permit.{bench_table};
ghost use Rattle.task.specs.Plans.{WorkedOut};
ghost use Rattle.task.specs.Steps.{through};
ghost use Rattle.task.specs.Task.{first_findings, second_findings, third_findings, first_run_steps, stale_slip_steps, second_run_steps, shown_motions, after_stale, after_second, history_of};

use crate::calls::Admission;
use crate::judging::{Finding, Judged, Refusal, SHOWN, found, load};
use crate::runs::{first_run, second_run, stale_slip};
use crate::step::Made;
use bench::bench_permit;
use controller::Controller;
use rowtable::{RowTable, Transition};

// The second plan: enter, lift, lower, and leave again, as rows.
const LOADING: [Transition; 4] = [
    Transition {
        from: 0,
        motion: 12,
        to: 1,
    },
    Transition {
        from: 1,
        motion: 6,
        to: 2,
    },
    Transition {
        from: 2,
        motion: 7,
        to: 1,
    },
    Transition {
        from: 1,
        motion: 13,
        to: 0,
    },
];

// What came of the task: the findings on each plan, and the steps under the first and under the second.
#[derive(Drop)]
pub struct Outcome {
    pub controller: Controller,
    pub first: [Finding; 3],
    pub first_steps: [Option<Made>; 15],
    pub second: [Finding; 2],
    pub second_steps: [Option<Made>; 7],
    pub third: [Finding; 3],
    // Kept: a list of a fixed length with its count in the last finding, since a library uses no heap.
    pub motions: [u8; SHOWN],
}

// Judges the first plan by its text, and drives it: what was found of it, and the steps.
#[tactic(auto, unfolding(reader::specs::Tokens::next_tok))]
fn drive_first(
    c: &mut Controller,
    permit: &RowTable,
) -> Result<([Finding; 3], [Option<Made>; 15]), Refusal>
    requires fresh { view c.old ≡ factory }
    requires bench { contents permit.now ≡ bench_table }
    ensures part { result ≡ Ok (first_findings, first_run_steps ++ stale_slip_steps) }
    ensures after { view c.new ≡ after_stale }
{
    let (read, plan) = load(b"(plan a1 (rec x (do enter (do fwd (do leave (go x))))))")?;
    let judged = Judged::of(&plan, permit)?;
    let admission = Admission {
        plan: &plan,
        permit,
        rows: judged.certificate(),
    };
    let run = first_run(c, admission);
    let mut steps = [None; 15];
    steps[..run.len()].copy_from_slice(&run);
    steps[run.len()..].copy_from_slice(&stale_slip(c));
    Ok((found(read, judged.answer), steps))
}

// Judges the second plan, and drives it.
fn drive_second(
    c: &mut Controller,
    permit: &RowTable,
) -> Result<([Finding; 2], [Option<Made>; 7]), Refusal>
    requires before { view c.old ≡ after_stale }
    requires bench { contents permit.now ≡ bench_table }
    ensures part { result ≡ Ok (second_findings, second_run_steps) }
    ensures after { view c.new ≡ after_second }
{
    let mut plan = RowTable::new();
    plan.vet(3, &LOADING)?;
    let judged = Judged::of(&plan, permit)?;
    let admission = Admission {
        plan: &plan,
        permit,
        rows: judged.certificate(),
    };
    let steps = second_run(c, admission);
    Ok(([Finding::Vetted, Finding::Searched(judged.answer)], steps))
}

// Judges the third plan by its text: what was found of it, and its motions that the permit lacks.
#[tactic(auto, unfolding(reader::specs::Tokens::next_tok))]
fn judge_third(permit: &RowTable) -> Result<([Finding; 3], [u8; SHOWN]), Refusal>
    requires { contents permit.now ≡ bench_table }
    ensures { result ≡ Ok (third_findings, shown_motions) }
{
    let (read, plan) = load(b"(plan b2 (do enter (do lift (do fwd (end)))))")?;
    let Judged {
        answer,
        motions,
        ..
    } = Judged::of(&plan, permit)?;
    Ok((found(read, answer), motions))
}

// The whole task: none of its plans is refused. Every finding, every step and its reply, and the motions shown are those
// written out; the plans and certificates are what reading, vetting and the search come to by their definitions. The
// steps, as a history with the bench permit in both admissions, account for the controller at the end: for some plans
// and certificates, and for just these.
pub fn one_task() -> Outcome
    ensures accounted { (first : Proc) × (second : Proc) × (xs : List ARow) × (ys : List ARow) × Accounts (through (an_admit first (meant bench_table) xs) (an_admit second (meant bench_table) ys) (result.first_steps ++ result.second_steps) []) (view result.controller) }
    ensures first { result.first ≡ first_findings }
    ensures first_steps { result.first_steps ≡ first_run_steps ++ stale_slip_steps }
    ensures second { result.second ≡ second_findings }
    ensures second_steps { result.second_steps ≡ second_run_steps }
    ensures third { result.third ≡ third_findings }
    ensures motions { result.motions ≡ shown_motions }
    ensures plans { WorkedOut }
    ensures accounts { Accounts (history_of (result.first_steps ++ result.second_steps)) (view result.controller) }
{
    let permit = bench_permit();
    let mut controller = Controller::new();
    let (first, first_steps) = drive_first(&mut controller, &permit).unwrap();
    let (second, second_steps) = drive_second(&mut controller, &permit).unwrap();
    let (third, motions) = judge_third(&permit).unwrap();
    Outcome {
        controller,
        first,
        first_steps,
        second,
        second_steps,
        third,
        motions,
    }
}
