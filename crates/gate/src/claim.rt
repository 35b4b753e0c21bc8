// What a certificate claims, and the tests of it.
ghost use Rattle.std.specs.Prelude.{◌≡◌, ◌^◌, nat_lt};
ghost use Rattle.std.specs.List.{list_any};
ghost use Rattle.gate.specs.Faults.{verdict_of};
ghost use Rattle.gate.specs.Follow.{plain};
ghost use Rattle.gate.specs.Gate.{first_bad, fits, starts, answers, answered, covered, first_tests, last_test, gate};

use crate::fault::CertificateFault;
use certificate::{MAX_ROWS, Row, find_row};
use common::Located;
use process::{MAX_STATES, Move, Process, StateSet};
use reach::{after, offers_of};

// The rows are to certify that every trace of the plan is a trace of the permit.
#[derive(Drop)]
pub(crate) struct Claim<'a, P, Q> {
    pub(crate) plan: &'a P,
    pub(crate) permit: &'a Q,
    pub(crate) rows: &'a [Row],
}

// Is every state of the set with these bits below n?
fn all_below(bits: u64, n: u8) -> bool
    ensures { result ≡ nat_lt bits (2 ^ n) }
{
    n >= MAX_STATES || bits < 1 << n
}

// Has the row that state, and a set within the given one?
fn row_answers(row: &Row, state: u8, set: StateSet) -> bool
    ensures { result ≡ answers state set.bits row.now }
{
    row.state == state && row.set.is_subset(set)
}

impl<'a, P: Process, Q: Process> Claim<'a, P, Q> {
    // Is the row's state one of the plan, and its set one of the permit's states and not empty?
    fn row_fits(&self, row: &Row) -> bool
        ensures { result ≡ fits (P.meaning self.now.plan.now) (Q.meaning self.now.permit.now) row.now }
    {
        row.state < self.plan.states()
            && !row.set.is_empty()
            && all_below(row.set.bits, self.permit.states())
    }

    // The first row that does not fit.
    fn first_unfit(&self) -> Option<usize>
        ensures { result ≡ first_bad (fits (P.meaning self.now.plan.now) (Q.meaning self.now.permit.now)) self.now.rows.now }
    {
        self.rows.iter().position(|row| !self.row_fits(row))
    }

    // Is there a row with state 0 and the set of just state 0?
    fn has_start(&self) -> bool
        ensures { result ≡ list_any (starts plain (Q.meaning self.now.permit.now)) self.now.rows.now }
    {
        find_row(self.rows, 0, StateSet::single(0)).is_some()
    }

    // The tests that look at each row alone: how many there are, whether each fits, whether one is a start.
    pub(crate) fn first_tests(&self) -> Result<(), Located<CertificateFault>>
        ensures { verdict_of result ≡ first_tests plain (P.meaning self.now.plan.now) (Q.meaning self.now.permit.now) self.now.rows.now }
    {
        if self.rows.is_empty() || self.rows.len() > MAX_ROWS {
            return Err(Located::at(CertificateFault::RowCount, 0));
        }
        if let Some(i) = self.first_unfit() {
            return Err(Located::at(CertificateFault::BadRow, i));
        }
        if !self.has_start() {
            return Err(Located::at(CertificateFault::NoStart, 0));
        }
        Ok(())
    }

    // Is there a row with that state, and a set within the given one?
    fn has_answer(&self, state: u8, set: StateSet) -> bool
        ensures { result ≡ list_any (answers state set.bits) self.now.rows.now }
    {
        self.rows.iter().any(|row| row_answers(row, state, set))
    }

    // Is the move silent, or answered by a row with its target and a set within After of the set?
    fn is_answered(&self, set: StateSet, step: Move) -> bool
        ensures { result ≡ answered plain (Q.meaning self.now.permit.now) self.now.rows.now set.bits step }
    {
        step.is_silent() || self.has_answer(step.target, after(self.permit, set, step.motion))
    }

    // Is every move that the row's state offers answered?
    fn is_covered(&self, row: &Row) -> bool
        ensures { result ≡ covered plain (P.meaning self.now.plan.now) (Q.meaning self.now.permit.now) self.now.rows.now row.now }
    {
        offers_of(self.plan, row.state).all(|step| self.is_answered(row.set, step))
    }

    // The first row with a move that no row answers.
    fn first_uncovered(&self) -> Option<usize>
        ensures { result ≡ first_bad (covered plain (P.meaning self.now.plan.now) (Q.meaning self.now.permit.now) self.now.rows.now) self.now.rows.now }
    {
        self.rows.iter().position(|row| !self.is_covered(row))
    }

    // The test that looks from row to row: every move that a row's state offers is answered by a row.
    fn last_test(&self) -> Result<(), Located<CertificateFault>>
        ensures { verdict_of result ≡ last_test plain (P.meaning self.now.plan.now) (Q.meaning self.now.permit.now) self.now.rows.now }
    {
        match self.first_uncovered() {
            Some(i) => Err(Located::at(CertificateFault::Unanswered, i)),
            None => Ok(()),
        }
    }

    // All tests, in order.
    pub(crate) fn all_tests(&self) -> Result<(), Located<CertificateFault>>
        ensures { verdict_of result ≡ gate plain (P.meaning self.now.plan.now) (Q.meaning self.now.permit.now) self.now.rows.now }
    {
        self.first_tests()?;
        self.last_test()
    }
}
