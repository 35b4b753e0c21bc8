// Why nothing is found of a plan.
ghost use Rattle.std.specs.Prelude.{◌≡◌};
ghost use Rattle.report.specs.Refusals.{told_of};
ghost use Rattle.report.specs.declared.refusal.Refusal.TheVariants.{Text, Form, Search};

use common::fault::told;
use common::{Located, Numbered};
use formtable::FormFault;
use lexer::TextFault;
use search::SearchFault;

// The text cannot be read, its records are no form table, or the search has no room.
#[derive(Clone, Copy, Debug, PartialEq, Eq)]
pub(crate) enum Refusal {
    Text(Located<TextFault>),
    Form(FormFault),
    Search(SearchFault),
}

impl From<Located<TextFault>> for Refusal {
    ghost from_gives = { λ at refusal. refusal ≡ Text at };

    fn from(at: Located<TextFault>) -> Self {
        Refusal::Text(at)
    }
}

impl From<FormFault> for Refusal {
    ghost from_gives = { λ fault refusal. refusal ≡ Form fault };

    fn from(fault: FormFault) -> Self {
        Refusal::Form(fault)
    }
}

impl From<SearchFault> for Refusal {
    ghost from_gives = { λ fault refusal. refusal ≡ Search fault };

    fn from(fault: SearchFault) -> Self {
        Refusal::Search(fault)
    }
}

impl Refusal {
    // The number and the place, which is 0 for a refusal that has none.
    pub fn told(self) -> (u8, usize)
        ensures { result ≡ told_of self }
    {
        match self {
            Refusal::Text(at) => told(&at),
            Refusal::Form(fault) => (fault.number(), 0),
            Refusal::Search(fault) => (fault.number(), 0),
        }
    }
}
