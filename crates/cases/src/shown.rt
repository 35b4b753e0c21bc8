// How numbers and faults are told in an answer.
ghost use Rattle.std.specs.Prelude.{Some};
ghost use Rattle.std.specs.List.{flat_map};
ghost use Rattle.common.specs.Faults.{shown_by};
ghost use Rattle.cases.specs.Shown.{placed, spaced};

use common::fault::told;
use common::{Located, Numbered};
use std::fmt;

// Numbers, each after a space.
#[derive(Clone, Copy)]
pub struct Spaced<'a>(pub &'a [u8]);

impl fmt::Display for Spaced<'_> {
    ghost output = { λ s. Some (flat_map spaced s.0.now) };

    fn fmt<W: fmt::Write>(&self, f: &mut fmt::Formatter<W>) -> fmt::Result {
        for n in self.0 {
            write!(f, " {n}")?;
        }
        Ok(())
    }
}

// A fault by its number, and its place.
#[derive(Clone, Copy)]
pub struct Shown<'a, F>(pub &'a Located<F>);

impl<F: Numbered> fmt::Display for Shown<'_, F> {
    ghost output = { λ s. Some (placed (shown_by F.number_of s.0.now)) };

    fn fmt<W: fmt::Write>(&self, f: &mut fmt::Formatter<W>) -> fmt::Result {
        let (number, place) = told(self.0);
        write!(f, "{number} {place}")
    }
}
