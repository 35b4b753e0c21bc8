// Sets of states.
ghost use Rattle.std.specs.Prelude.{◌≡◌, ℕ, ◌==◌, bit_or};
ghost use Rattle.process.specs.SetLaws.{SetLaws};
ghost use Rattle.process.specs.Sets.{has, inserted, single, within};

// How many states a process, and so a set, can have.
pub const MAX_STATES: u8 = 64;

// A set of states: bit t for state t, bit 0 lowest.
#[derive(Clone, Copy, Debug, PartialEq, Eq)]
pub struct StateSet {
    pub bits: u64,
}

// Is bit t of the number 1?
fn bit(bits: u64, t: u8) -> bool
    ensures { result ≡ has bits t }
{
    t < MAX_STATES && (bits >> t) % 2 == 1
}

// The bits of either number.
fn either(a: u64, b: u64) -> u64
    ensures { result ≡ bit_or a b }
{
    a | b
}

impl StateSet {
    // The set without states.
    pub fn empty() -> Self
        ensures { result.bits ≡ 0 }
    {
        StateSet { bits: 0 }
    }

    // The set of just state t; empty from 64 on, where there is no state.
    pub fn single(t: u8) -> Self
        ensures { result.bits ≡ single t }
    {
        StateSet::empty().insert(t)
    }

    // Is state t in the set?
    pub fn contains(self, t: u8) -> bool
        ensures { result ≡ has self.bits t }
    {
        bit(self.bits, t)
    }

    // The set with state t; from 64 on there is no state, and the set stays.
    pub fn insert(self, t: u8) -> Self
        ensures { result.bits ≡ inserted self.bits t }
    {
        if t < MAX_STATES {
            StateSet {
                bits: self.bits | (1 << t),
            }
        } else {
            self
        }
    }

    // The states of either set. With it stands what all these operations mean for the states of a set.
    pub fn union(self, other: StateSet) -> Self
        ensures value { result.bits ≡ bit_or self.bits other.bits }
        ensures laws { SetLaws }
    {
        StateSet {
            bits: either(self.bits, other.bits),
        }
    }

    // Is every state of this set in the other?
    pub fn is_subset(self, other: StateSet) -> bool
        ensures { result ≡ within self.bits other.bits }
    {
        self.bits | other.bits == other.bits
    }

    // Is there no state in the set?
    pub fn is_empty(self) -> bool
        ensures { result ≡ (self.bits == 0) }
    {
        self.bits == 0
    }
}
