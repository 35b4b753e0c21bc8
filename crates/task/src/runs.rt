// The runs through the first and the second plan, call by call.
ghost use Rattle.std.specs.Prelude.{◌≡◌};
ghost use Rattle.controller.specs.Histories.Call.{admit as an_admit};
ghost use Rattle.controller.specs.Record.{factory};
ghost use Rattle.controller.specs.View.{view};
ghost use Rattle.task.specs.Steps.{Steps};
ghost use Rattle.task.specs.Task.{first_run_steps, stale_slip_steps, second_run_steps, first_admission, second_admission, after_first, after_stale, after_second};

use crate::calls::{Admission, admit, done, failed, release, rest, start};
use crate::step::{Asked, Made};
use controller::Controller;
use process::Process;

const FWD: u8 = 1;

const LIFT: u8 = 6;

const ENTER: u8 = 12;

const LEAVE: u8 = 13;

// Drives the first plan until it fails.
pub(crate) fn first_run<P: Process, Q: Process>(
    c: &mut Controller,
    admission: Admission<'_, P, Q>,
) -> [Option<Made>; 10]
    requires fresh { view c.old ≡ factory }
    requires admission { an_admit (P.meaning admission.plan.now) (Q.meaning admission.permit.now) admission.rows.now ≡ first_admission }
    ensures steps { result ≡ first_run_steps }
    ensures after { view c.new ≡ after_first }
    ensures accounts { Steps first_admission second_admission (view c.old) result (view c.new) }
{
    let admitted = admit(c, Asked::AdmitFirst, admission);
    let started = start(c);
    let (enter, slip1) = release(c, ENTER);
    let entered = done(c, slip1);
    let (fwd, slip2) = release(c, FWD);
    let moved = done(c, slip2);
    let (lift, none) = release(c, LIFT);
    let lifted = done(c, none);
    let (leave, slip3) = release(c, LEAVE);
    let left = failed(c, slip3);
    [
        Some(admitted),
        Some(started),
        Some(enter),
        entered,
        Some(fwd),
        moved,
        Some(lift),
        lifted,
        Some(leave),
        left,
    ]
}

// Starts again, rests before a slip is handed back, and hands it back in the next run.
pub(crate) fn stale_slip(c: &mut Controller) -> [Option<Made>; 5]
    requires { view c.old ≡ after_first }
    ensures steps { result ≡ stale_slip_steps }
    ensures after { view c.new ≡ after_stale }
    ensures accounts { Steps first_admission second_admission (view c.old) result (view c.new) }
{
    let again = start(c);
    let (enter, slip4) = release(c, ENTER);
    let rested = rest(c);
    let next = start(c);
    let entered = done(c, slip4);
    [Some(again), Some(enter), Some(rested), Some(next), entered]
}

// Ends the run, and drives the second plan.
pub(crate) fn second_run<P: Process, Q: Process>(
    c: &mut Controller,
    admission: Admission<'_, P, Q>,
) -> [Option<Made>; 7]
    requires before { view c.old ≡ after_stale }
    requires admission { an_admit (P.meaning admission.plan.now) (Q.meaning admission.permit.now) admission.rows.now ≡ second_admission }
    ensures steps { result ≡ second_run_steps }
    ensures after { view c.new ≡ after_second }
    ensures accounts { Steps first_admission second_admission (view c.old) result (view c.new) }
{
    let over = rest(c);
    let admitted = admit(c, Asked::AdmitSecond, admission);
    let started = start(c);
    let (enter, slip5) = release(c, ENTER);
    let entered = done(c, slip5);
    let (lift, slip6) = release(c, LIFT);
    let lifted = done(c, slip6);
    [
        Some(over),
        Some(admitted),
        Some(started),
        Some(enter),
        entered,
        Some(lift),
        lifted,
    ]
}
