// Faults with their places.
ghost use Rattle.std.specs.Prelude.{◌≡◌, ℕ};
ghost use Rattle.common.specs.Faults.{shown_by};

// A fault and the place where it was found: one way for every kind of fault.
#[derive(Clone, Copy, Debug, PartialEq, Eq)]
pub struct Located<F> {
    pub fault: F,
    pub place: usize,
}

impl<F> Located<F> {
    // A fault at a place.
    pub fn at(fault: F, place: usize) -> Self
        ensures { result ≡ record { fault = fault; place = place } }
    {
        Located { fault, place }
    }

    // The same as a fault of a wider kind, at its place.
    pub fn lift<G: From<F>>(self) -> Located<G>
        ensures fault { G.from_gives self.fault result.fault }
        ensures place { result.place ≡ self.place }
    {
        Located::at(G::from(self.fault), self.place)
    }
}

// A kind of fault says by which number each of its cases is known.
pub trait Numbered {
    ghost number_of: { Self → ℕ };

    fn number(&self) -> u8
        ensures { result ≡ number_of self.now };
}

// The number and the place of a fault, as they are told.
pub fn told<F: Numbered>(at: &Located<F>) -> (u8, usize)
    ensures { result ≡ shown_by F.number_of at.now }
{
    (at.fault.number(), at.place)
}
