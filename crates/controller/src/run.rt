// A run through a plan: how far it has come.
ghost use Rattle.std.specs.Prelude.{◌≡◌};
ghost use Rattle.controller.specs.Answers.{plain_told, slip_told, Unspent};
ghost use Rattle.controller.specs.Runs.{fresh_run, is_on, at_stage, start_answer, after_start, release_from, after_release, slip_answer, after_slip, rest_answer, after_rest};
ghost use Rattle.controller.specs.declared.run.Stage.TheVariants.{Ready};

use crate::fault::DriverFault;
use crate::slip::Slip;
use process::{LAST_MOTION, Process, StateSet};
use reach::after;

// What a controller may be asked for.
#[derive(Clone, Copy, Debug, PartialEq, Eq)]
pub enum Stage {
    // No plan was ever admitted.
    Bare,
    // A plan is there, and no run is on.
    Ready,
    // A motion may be released.
    Running,
    // A released motion is not yet done.
    Waiting,
}

// The stage, the states that the plan may be in, and how many motions were released in all.
#[derive(Clone, Copy)]
pub struct Run {
    stage: Stage,
    cursor: StateSet,
    count: u32,
}

impl Run {
    // Before any plan.
    pub(crate) fn new() -> Self
        ensures { result ≡ fresh_run }
    {
        Run {
            stage: Stage::Bare,
            cursor: StateSet::empty(),
            count: 0,
        }
    }

    // Is a run on?
    pub(crate) fn is_on(&self) -> bool
        ensures { result ≡ is_on self.now.stage }
    {
        matches!(self.stage, Stage::Running | Stage::Waiting)
    }

    // A plan is there.
    pub(crate) fn make_ready(&mut self)
        ensures { self.new ≡ at_stage Ready self.old }
    {
        self.stage = Stage::Ready;
    }

    // From ready on to running, at the first state.
    pub(crate) fn start(&mut self) -> Result<(), DriverFault>
        ensures answer { plain_told result ≡ start_answer self.old.stage }
        ensures run { self.new ≡ after_start self.old }
    {
        match self.stage {
            Stage::Bare => return Err(DriverFault::NoRun),
            Stage::Ready => {}
            Stage::Running | Stage::Waiting => return Err(DriverFault::RunOn),
        }
        self.stage = Stage::Running;
        self.cursor = StateSet::single(0);
        Ok(())
    }

    // Releases a motion that the plan allows from the cursor on.
    pub(crate) fn release<P: Process>(&mut self, plan: &P, motion: u8) -> Result<Slip, DriverFault>
        ensures answer { slip_told result ≡ release_from (P.meaning plan.now) self.old motion }
        ensures run { self.new ≡ after_release (P.meaning plan.now) self.old motion }
        ensures unspent { Unspent result }
    {
        match self.stage {
            Stage::Bare | Stage::Ready => return Err(DriverFault::NoRun),
            Stage::Waiting => return Err(DriverFault::StillWaiting),
            Stage::Running => {}
        }
        if !(1..=LAST_MOTION).contains(&motion) {
            return Err(DriverFault::UnknownMotion);
        }
        let next = after(plan, self.cursor, motion);
        if next.is_empty() {
            return Err(DriverFault::NotAllowed);
        }
        let Some(number) = self.count.checked_add(1) else {
            return Err(DriverFault::NoNumberLeft);
        };
        self.stage = Stage::Waiting;
        self.cursor = next;
        self.count = number;
        Ok(Slip {
            number,
            spent: false,
        })
    }

    // Spends the slip; the one that is waited for leads on to the stage.
    pub(crate) fn spend(&mut self, mut slip: Slip, to: Stage) -> Result<(), DriverFault>
        ensures answer { plain_told result ≡ slip_answer self.old.stage self.old.count slip.number }
        ensures run { self.new ≡ after_slip to self.old slip.number }
    {
        slip.spent = true;
        if self.stage != Stage::Waiting || slip.number != self.count {
            return Err(DriverFault::StaleSlip);
        }
        self.stage = to;
        Ok(())
    }

    // Ends the run.
    pub(crate) fn rest(&mut self) -> Result<(), DriverFault>
        ensures answer { plain_told result ≡ rest_answer self.old.stage }
        ensures run { self.new ≡ after_rest self.old }
    {
        if !self.is_on() {
            return Err(DriverFault::NoRun);
        }
        self.stage = Stage::Ready;
        Ok(())
    }
}
