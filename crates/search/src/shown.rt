// The motions that lead to a row, read along back.
ghost use Rattle.std.specs.Prelude.{◌≡◌, ◌<◌, [], ◌∷◌, length};
ghost use Rattle.std.specs.Iterator.{YieldsFirst, item_count};
ghost use Rattle.search.specs.Answers.{shown_of, ShownFit};
ghost use Rattle.search.specs.Back.{Earlier, way_back, along};
ghost use Rattle.search.specs.Search.{shown as shown_with};

use crate::answer::SearchFault;
use certificate::Row;

// A row and those that it comes from, as far as row 0, which is left out.
#[derive(Clone, Copy)]
pub(crate) struct WayBack<'a> {
    rows: &'a [Row],
    at: usize,
    ghost inside: { at < length rows.now },
    ghost earlier: { Earlier rows.now },
}

impl<'a> WayBack<'a> {
    ghost use Rattle.search.specs.WayBack.{left_of};

    // From row i on.
    pub(crate) fn new(rows: &'a [Row], i: usize) -> Self
        requires inside { i < length rows.now }
        requires earlier { Earlier rows.now }
        ensures { left_of result ≡ way_back i rows.now i }
    {
        WayBack { rows, at: i }
    }

    // Writes the motions along it, earliest first, and then the last one: how many they are, refused where there is
    // no room for them.
    #[tactic(auto, using(crate::proofs::Writing::steps))]
    pub(crate) fn show(self, last: u8, motions: &mut [u8]) -> Result<usize, SearchFault>
        ensures value { shown_of result motions.new ≡ shown_with (length motions.old) (along (left_of self.entry) (last ∷ [])) }
        ensures fit { ShownFit result (length motions.old) }
    {
        let before = self.count();
        if before >= motions.len() {
            return Err(SearchFault::MotionsShort);
        }
        motions[before] = last;
        // Kept: by their places, since an invariant cannot name the motions that `iter_mut().rev()` lends.
        for (k, row) in (0..before).rev().zip(self) {
            motions[k] = row.by;
        }
        Ok(before + 1)
    }
}

impl<'a> Iterator for WayBack<'a> {
    ghost use Rattle.search.specs.WayBack.{left_of};

    type Item = Row;

    ghost next_gives = { YieldsFirst left_of };

    ghost remaining = { item_count left_of };

    #[tactic(auto, using(crate::proofs::Trails::way_next))]
    fn next(&mut self) -> Option<Row> {
        if self.at == 0 {
            return None;
        }
        let row = self.rows[self.at];
        self.at = row.back as usize;
        Some(row)
    }
}
