// What the search answers.
ghost use Rattle.std.specs.Prelude.{◌≡◌};
ghost use Rattle.search.specs.Answers.{counts_of, search_number};

use common::Numbered;

// Within, with the count of the rows listed; beyond, with the count of the motions shown.
#[derive(Clone, Copy, Debug, PartialEq, Eq)]
pub enum Answer {
    Within(usize),
    Beyond(usize),
}

impl Answer {
    // How many rows and how many motions it counts.
    pub(crate) fn counts(self) -> (usize, usize)
        ensures { result ≡ counts_of self }
    {
        match self {
            Answer::Within(rows) => (rows, 0),
            Answer::Beyond(motions) => (0, motions),
        }
    }
}

// Why the search is refused: a list of the caller's is too short.
#[derive(Clone, Copy, Debug, PartialEq, Eq)]
pub enum SearchFault {
    RowsFull,
    MotionsShort,
}

impl Numbered for SearchFault {
    ghost number_of = { search_number };

    fn number(&self) -> u8 {
        match self {
            SearchFault::RowsFull => 41,
            SearchFault::MotionsShort => 42,
        }
    }
}
