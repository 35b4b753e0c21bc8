// Looking up the first record with a key, alike for every kind of record.
ghost use Rattle.std.specs.Prelude.{◌≡◌, length, Decides};
ghost use Rattle.common.specs.First.{FirstWith};

// A kind of record says what it is looked up by.
pub trait Keyed {
    type Key;

    // What a key means, and what a record is looked up by.
    ghost Meant: { Type 0 };

    ghost meant: { Self.Key → Meant };

    ghost by: { Self → Meant };

    fn has_key(&self, key: &Self::Key) -> bool
        ensures { Decides result (by self.now ≡ meant key.now) };
}

// The index of the first record with the key; None exactly when no record has it.
pub fn find_first<R: Keyed>(records: &[R], key: &R::Key) -> Option<usize>
    ensures { FirstWith (λ x. R.by x ≡ R.meant key.now) records.now result }
{
    records.iter().position(|x| x.has_key(key))
}
