// A motion's name as a record that is looked up by its letters.
ghost use Rattle.std.specs.Prelude.{ℕ, List};

use common::Keyed;

// The name of a motion.
#[derive(Clone, Copy)]
pub struct Name<'a> {
    pub letters: &'a [u8],
}

impl<'a> Keyed for Name<'a> {
    type Key = &'a [u8];

    ghost Meant = { List ℕ };

    ghost meant = { λ k. k.now };

    ghost by = { λ n. n.letters.now };

    fn has_key(&self, key: &&'a [u8]) -> bool {
        self.letters == *key
    }
}
