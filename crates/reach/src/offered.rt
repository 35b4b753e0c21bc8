// The moves that a state offers, as an iterator.
ghost use Rattle.std.specs.Prelude.{◌≡◌, All};
ghost use Rattle.std.specs.Iterator.{YieldsFirst, item_count};
ghost use Rattle.reach.specs.Laws.{OffersExact};
ghost use Rattle.reach.specs.Offers.{offers, rest_of, IsKnown};

use crate::offers::Offers;
use process::{Move, Process};

// A cursor, with the process whose moves it goes over.
#[derive_where(Clone, Copy)]
pub struct OffersOf<'a, P> {
    process: &'a P,
    cursor: Offers,
}

// The moves that state s offers; none for a state that does not exist.
pub fn offers_of<P: Process>(process: &P, s: u8) -> OffersOf<'_, P>
    ensures value { rest_of P.meaning result ≡ offers (P.meaning process.now) s }
    ensures exact { OffersExact (P.meaning process.now) s (rest_of P.meaning result) }
    ensures known { All (IsKnown (P.meaning process.now)) (rest_of P.meaning result) }
{
    OffersOf {
        process,
        cursor: Offers::of(process, s),
    }
}

impl<'a, P: Process> Iterator for OffersOf<'a, P> {
    type Item = Move;

    ghost next_gives = { YieldsFirst (rest_of P.meaning) };

    ghost remaining = { item_count (rest_of P.meaning) };

    fn next(&mut self) -> Option<Move> {
        self.cursor.next(self.process)
    }
}
