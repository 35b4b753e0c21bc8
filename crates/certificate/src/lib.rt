// The rows of a certificate.
#![tactic(auto)]

ghost use Rattle.std.specs.Prelude.{◌≡◌, ℕ};
ghost use Rattle.common.specs.First.{FirstWith};
ghost use Rattle.certificate.specs.Rows.{empty_row, key_of};

use common::{Keyed, find_first};
use process::StateSet;

// How many rows a certificate may have.
pub const MAX_ROWS: usize = 1_024;

// A row: a state of the plan, a set of the permit's states, and how the search came to it:
// from the row `back`, by the motion `by`.
#[derive(Clone, Copy, Debug, PartialEq, Eq)]
pub struct Row {
    pub state: u8,
    pub set: StateSet,
    pub back: u16,
    pub by: u8,
}

impl Row {
    // The row that fills the places without one: all zeros.
    pub fn empty() -> Self
        ensures { result ≡ empty_row }
    {
        Row {
            state: 0,
            set: StateSet::empty(),
            back: 0,
            by: 0,
        }
    }
}

// A row is looked up by its state and its set.
impl Keyed for Row {
    type Key = (u8, StateSet);

    ghost Meant = { ℕ × ℕ };

    ghost meant = { λ k. (k.0, k.1.bits) };

    ghost by = { key_of };

    fn has_key(&self, key: &(u8, StateSet)) -> bool {
        (self.state, self.set) == *key
    }
}

// The index of the first row with that state and that set; None exactly when no row has them.
pub fn find_row(rows: &[Row], state: u8, set: StateSet) -> Option<usize>
    ensures { FirstWith (λ x. key_of x ≡ (state, set.bits)) rows.now result }
{
    find_first(rows, &(state, set))
}
