// The controller's calls as steps of a task.
ghost use Rattle.std.specs.Prelude.{◌≡◌};
ghost use Rattle.controller.specs.Histories.Call.{admit as an_admit, start as a_start, release as a_release, done as a_done, failed as a_failed, rest as a_rest};
ghost use Rattle.controller.specs.View.{view};
ghost use Rattle.task.specs.declared.step.Asked.TheVariants.{Start, Release, Done, Failed, Rest};
ghost use Rattle.task.specs.Steps.{unplaced, Makes, number_of, slip_of, HandsBack};

use crate::step::{Asked, Made};
use certificate::Row;
use common::Located;
use controller::{Controller, DriverFault, Slip};
use process::Process;

// A call of the driver; its denials have place 0.
fn made(asked: Asked, told: Result<Option<u32>, DriverFault>) -> Made
    ensures { result ≡ record { asked = asked; reply = unplaced told } }
{
    Made {
        asked,
        reply: told.map_err(Located::from),
    }
}

// What an admission brings: a plan, a permit, and the rows of a certificate.
#[derive(Clone, Copy)]
pub(crate) struct Admission<'a, P, Q> {
    pub plan: &'a P,
    pub permit: &'a Q,
    pub rows: &'a [Row],
}

// Admits a plan; `asked` says which one.
pub(crate) fn admit<P: Process, Q: Process>(
    c: &mut Controller,
    asked: Asked,
    admission: Admission<'_, P, Q>,
) -> Made
    ensures { Makes asked (an_admit (P.meaning admission.entry.plan.now) (Q.meaning admission.entry.permit.now) admission.entry.rows.now) (view c.old) result (view c.new) }
{
    let told = c.admit(admission.plan, admission.permit, admission.rows);
    let reply = told.map(|()| None);
    Made { asked, reply }
}

// Starts a run.
pub(crate) fn start(c: &mut Controller) -> Made
    ensures { Makes Start a_start (view c.old) result (view c.new) }
{
    made(Asked::Start, c.start().map(|()| None))
}

// Ends a run.
// Kept: like start but for the call, and a line each; a function that takes the call as a closure is no shorter.
pub(crate) fn rest(c: &mut Controller) -> Made
    ensures { Makes Rest a_rest (view c.old) result (view c.new) }
{
    made(Asked::Rest, c.rest().map(|()| None))
}

// Releases a motion; the slip is there if it is granted.
pub(crate) fn release(c: &mut Controller, motion: u8) -> (Made, Option<Slip>)
    ensures made { Makes (Release motion) (a_release motion) (view c.old) result.0 (view c.new) }
    ensures slip { number_of result.1 ≡ slip_of result.0.reply }
{
    let (told, slip) = match c.release(motion) {
        Ok(slip) => (Ok(Some(slip.number())), Some(slip)),
        Err(fault) => (Err(fault), None),
    };
    (made(Asked::Release(motion), told), slip)
}

// Says that the motion of the slip is done; without a slip nothing is asked.
pub(crate) fn done(c: &mut Controller, slip: Option<Slip>) -> Option<Made>
    ensures { HandsBack Done a_done (number_of slip) (view c.old) result (view c.new) }
{
    let slip = slip?;
    let asked = Asked::Done(slip.number());
    Some(made(asked, c.done(slip).map(|()| None)))
}

// Says that the motion of the slip failed; without a slip nothing is asked.
// Kept: like done but for the call; a function that takes the call as a closure needs more clauses than this has lines.
pub(crate) fn failed(c: &mut Controller, slip: Option<Slip>) -> Option<Made>
    ensures { HandsBack Failed a_failed (number_of slip) (view c.old) result (view c.new) }
{
    let slip = slip?;
    let asked = Asked::Failed(slip.number());
    Some(made(asked, c.failed(slip).map(|()| None)))
}
