// The controller and its six calls.
ghost use Rattle.std.specs.Prelude.{◌≡◌, []};
ghost use Rattle.controller.specs.Accounts.{Accounts, Accounted};
ghost use Rattle.controller.specs.Answers.{plain_told, slip_told, admit_told, Unspent};
ghost use Rattle.controller.specs.Histories.Call.{admit as an_admit, start as a_start, release as a_release, done as a_done, failed as a_failed, rest as a_rest};
ghost use Rattle.controller.specs.Record.{factory, answer as answer_of, next as next_of};
ghost use Rattle.controller.specs.View.{view};
ghost use Rattle.controller.specs.Whole.{EveryList};

use crate::fault::{AdmitFault, DriverFault};
use crate::run::{Run, Stage};
use crate::slip::Slip;
use certificate::Row;
use common::Located;
use gate::check;
use movetable::{MoveTable, moves_in_all};
use process::Process;

// How many moves in all a plan may have.
const MAX_MOVES: usize = 256;

// The moves of the plan last admitted, and the run through them.
// Kept: clauses see it through the function `view`; a model's value cannot be the record, since a process's moves are a
// function, and a value must be data.
#[derive(Drop)]
pub struct Controller {
    moves: MoveTable<MAX_MOVES>,
    run: Run,
}

impl Controller {
    // From the factory: no plan, no run.
    pub fn new() -> Self
        ensures factory { view result ≡ factory }
        ensures accounts { Accounts [] (view result) }
        ensures every { EveryList }
    {
        Controller {
            moves: MoveTable::new(),
            run: Run::new(),
        }
    }

    // Admits a plan that its certificate shows to be within the permit.
    pub fn admit<P: Process, Q: Process>(
        &mut self,
        plan: &P,
        permit: &Q,
        rows: &[Row],
    ) -> Result<(), Located<AdmitFault>>
        ensures answer { admit_told result ≡ answer_of (view self.old) (an_admit (P.meaning plan.now) (Q.meaning permit.now) rows.now) }
        ensures after { view self.new ≡ next_of (view self.old) (an_admit (P.meaning plan.now) (Q.meaning permit.now) rows.now) }
        ensures accounted { Accounted (view self.old) (an_admit (P.meaning plan.now) (Q.meaning permit.now) rows.now) (admit_told result) (view self.new) }
    {
        if self.run.is_on() {
            return Err(DriverFault::RunOn.into());
        }
        check(plan, permit, rows).map_err(Located::lift)?;
        if moves_in_all(plan) > MAX_MOVES {
            return Err(DriverFault::TooManyMoves.into());
        }
        self.moves = MoveTable::of(plan);
        self.run.make_ready();
        Ok(())
    }

    // Starts a run through the plan last admitted.
    pub fn start(&mut self) -> Result<(), DriverFault>
        ensures answer { plain_told result ≡ answer_of (view self.old) a_start }
        ensures after { view self.new ≡ next_of (view self.old) a_start }
        ensures accounted { Accounted (view self.old) a_start (plain_told result) (view self.new) }
    {
        self.run.start()
    }

    // Releases a motion that the plan allows; the slip must be handed to done or failed.
    pub fn release(&mut self, motion: u8) -> Result<Slip, DriverFault>
        ensures answer { slip_told result ≡ answer_of (view self.old) (a_release motion) }
        ensures after { view self.new ≡ next_of (view self.old) (a_release motion) }
        ensures accounted { Accounted (view self.old) (a_release motion) (slip_told result) (view self.new) }
        ensures unspent { Unspent result }
    {
        self.run.release(&self.moves, motion)
    }

    // The motion of the slip is done: the run goes on.
    pub fn done(&mut self, slip: Slip) -> Result<(), DriverFault>
        ensures answer { plain_told result ≡ answer_of (view self.old) (a_done slip.number) }
        ensures after { view self.new ≡ next_of (view self.old) (a_done slip.number) }
        ensures accounted { Accounted (view self.old) (a_done slip.number) (plain_told result) (view self.new) }
    {
        self.run.spend(slip, Stage::Running)
    }

    // The motion of the slip failed: the run is over.
    pub fn failed(&mut self, slip: Slip) -> Result<(), DriverFault>
        ensures answer { plain_told result ≡ answer_of (view self.old) (a_failed slip.number) }
        ensures after { view self.new ≡ next_of (view self.old) (a_failed slip.number) }
        ensures accounted { Accounted (view self.old) (a_failed slip.number) (plain_told result) (view self.new) }
    {
        self.run.spend(slip, Stage::Ready)
    }

    // Ends the run; a slip that is still out is stale from then on.
    pub fn rest(&mut self) -> Result<(), DriverFault>
        ensures answer { plain_told result ≡ answer_of (view self.old) a_rest }
        ensures after { view self.new ≡ next_of (view self.old) a_rest }
        ensures accounted { Accounted (view self.old) a_rest (plain_told result) (view self.new) }
    {
        self.run.rest()
    }
}
