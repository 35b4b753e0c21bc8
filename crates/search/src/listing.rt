// The rows of a listing: worked in order, each new pair of a state and a set once.
ghost use Rattle.std.specs.Prelude.{◌≡◌, ℕ, ◌<◌, ◌≤◌, length, take, slice_index_or};
ghost use Rattle.certificate.specs.Rows.{empty_row};
ghost use Rattle.search.specs.Answers.{trial_of, AtRow, end_of, EndsAt};
ghost use Rattle.search.specs.Back.{Earlier};
ghost use Rattle.search.specs.Rule.{unless_listed, asks, ruled};
ghost use Rattle.search.specs.Search.{try_ask, try_row, search_by};

use crate::question::Question;
use crate::rule::Rule;
use certificate::{MAX_ROWS, Row, find_row};
use process::{Move, Process};

// Why the work stops: at a row the rule has no set for a motion, or a row has no place.
#[derive(Clone, Copy, Debug, PartialEq, Eq)]
pub(crate) enum Stop {
    Lacking { row: usize, motion: u8 },
    Full,
}

// The rows listed: the first `count` of the caller's. Each but row 0 comes from a row before it.
#[derive(Drop)]
pub(crate) struct Listed<'a> {
    rows: &'a mut [Row],
    count: usize,
    ghost fit: { count ≤ length rows.now },
    ghost few: { count ≤ 1024 },
    ghost earlier: { Earlier (take count rows.now) },
}

impl<'a> Listed<'a> {
    ghost use Rattle.search.specs.Listed.{listed, room, Grows};

    // No row yet, in the caller's list.
    pub(crate) fn new(rows: &'a mut [Row]) -> Self
        ensures empty { result.count ≡ 0 }
        ensures same_reference { result.rows.ghost_name ≡ rows.entry.ghost_name }
        ensures same_length { length result.rows.now ≡ length rows.old }
    {
        Listed { rows, count: 0 }
    }

    // The rows listed.
    pub(crate) fn as_slice(&self) -> &[Row]
        ensures { result.now ≡ listed self.now }
    {
        &self.rows[..self.count]
    }

    // Appends a row unless one with its state and set is listed.
    fn append(&mut self, row: Row) -> Result<(), Stop>
        requires from { 0 < self.old.count → row.back < self.old.count }
        ensures value { trial_of result (listed self.new) ≡ try_ask (room self.old) row.by (listed self.old) (unless_listed (listed self.old) row) }
        ensures at_row { AtRow row.back result }
        ensures grows { Grows self.old self.new }
    {
        if find_row(self.as_slice(), row.state, row.set).is_some() {
            return Ok(());
        }
        if self.count >= self.rows.len().min(MAX_ROWS) {
            return Err(Stop::Full);
        }
        self.rows[self.count] = row;
        self.count += 1;
        Ok(())
    }

    // Works one move of row i: a silent one asks for nothing, and another for the row that it leads to.
    fn work_move<P: Process, F: Rule>(
        &mut self,
        asked: &Question<'_, P, F>,
        i: usize,
        row: Row,
        m: Move,
    ) -> Result<(), Stop>
        requires inside { i < self.old.count }
        ensures value { trial_of result (listed self.new) ≡ try_ask (room self.old) m.motion (listed self.old) (asks (F.leads asked.now.rule.now) i row (listed self.old) m) }
        ensures at_row { AtRow i result }
        ensures grows { Grows self.old self.new }
    {
        if m.is_silent() {
            return Ok(());
        }
        let set = asked.follow(row.set, m).ok_or(Stop::Lacking {
            row: i,
            motion: m.motion,
        })?;
        self.append(Row {
            state: m.target,
            set,
            back: i as u16,
            by: m.motion,
        })
    }

    // Works the moves that row i offers, in order.
    #[tactic(auto, using(crate::proofs::Grown::grows_on))]
    fn work_row<P: Process, F: Rule>(
        &mut self,
        asked: &Question<'_, P, F>,
        i: usize,
    ) -> Result<(), Stop>
        requires inside { i < self.old.count }
        ensures value { trial_of result (listed self.new) ≡ try_row (ruled (P.meaning asked.now.plan.now) (F.begins asked.now.rule.now) (F.leads asked.now.rule.now)) (room self.old) i (slice_index_or (listed self.old) i empty_row) (listed self.old) }
        ensures at_row { AtRow i result }
        ensures grows { Grows self.old self.new }
    {
        let row = self.as_slice()[i];
        for m in asked.offers(row.state) {
            self.work_move(asked, i, row, m)?;
        }
        Ok(())
    }

    // Lists row 0 and works the rows in order, until none is left, a motion is lacking, or a row has no place.
    #[tactic(auto, using(crate::proofs::Works::steps))]
    pub(crate) fn list_all<P: Process, F: Rule>(
        &mut self,
        asked: &Question<'_, P, F>,
    ) -> Result<(), Stop>
        requires empty { self.old.count ≡ 0 }
        ensures value { (m : ℕ) → end_of m result (listed self.new) ≡ search_by (ruled (P.meaning asked.now.plan.now) (F.begins asked.now.rule.now) (F.leads asked.now.rule.now)) (length self.old.rows.now) m }
        ensures at_listed { EndsAt result (listed self.new) }
        ensures grows { Grows self.old self.new }
    {
        self.append(Row {
            set: asked.start(),
            ..Row::empty()
        })?;
        let mut i = 0;
        // Kept: the list grows while it is worked, so no iterator can go over it.
        while i < self.count {
            self.work_row(asked, i)?;
            i += 1;
        }
        Ok(())
    }
}
