// Which word names which motion.
ghost use Rattle.std.specs.Prelude.{◌≡◌, ◌<◌, map, length, IfSome};
ghost use Rattle.std.specs.Option.{option_map};
ghost use Rattle.std.specs.List.{slice_get};
ghost use Rattle.motions.specs.Naming.{names, letters_of, Distinct, place_of, motion_of, name_of, OneToOne, Short};

use crate::words::Name;
use common::find_first;

// The names of the motions 1 to 24, in order.
pub const NAMES: [Name<'static>; 24] = [
    Name { letters: b"fwd" },
    Name { letters: b"rev" },
    Name {
        letters: b"slowfwd",
    },
    Name {
        letters: b"slowrev",
    },
    Name { letters: b"halt" },
    Name { letters: b"lift" },
    Name { letters: b"lower" },
    Name { letters: b"grip" },
    Name { letters: b"drop" },
    Name { letters: b"scan" },
    Name { letters: b"count" },
    Name { letters: b"enter" },
    Name { letters: b"leave" },
    Name { letters: b"dock" },
    Name { letters: b"undock" },
    Name { letters: b"park" },
    Name { letters: b"wake" },
    Name { letters: b"charge" },
    Name {
        letters: b"uncharge",
    },
    Name { letters: b"horn" },
    Name { letters: b"lampon" },
    Name {
        letters: b"lampoff",
    },
    Name { letters: b"zero" },
    Name { letters: b"report" },
];

// All names, no two of them alike, so that naming is one to one.
pub fn table() -> &'static [Name<'static>]
    ensures is { map letters_of result.now ≡ names }
    ensures count { length result.now ≡ 24 }
    ensures distinct { Distinct names }
    ensures paired { OneToOne }
{
    &NAMES
}

// The place of a word in the table, from 0 on.
fn place_of(word: &[u8]) -> Option<usize>
    ensures is { result ≡ place_of word.now }
    ensures within { IfSome result (λ i. i < 24) }
{
    find_first(table(), &word)
}

// The motion that a word names, 1 to 24; None for any other word.
pub fn motion_of(word: &[u8]) -> Option<u8>
    ensures { result ≡ motion_of word.now }
{
    place_of(word).map(|i| i as u8 + 1)
}

// The name of a motion, 1 to 8 letters; None unless the motion is 1 to 24.
pub fn name_of(motion: u8) -> Option<&'static [u8]>
    ensures is { option_map (λ x. x.now) result ≡ name_of motion }
    ensures short { IfSome result (λ name. Short name.now) }
{
    let place = motion.checked_sub(1)?;
    table().get(usize::from(place)).map(|name| name.letters)
}
