// Motions as they are shown.
ghost use Rattle.std.specs.Prelude.{◌≡◌};

use crate::naming::name_of;
use std::{fmt, str};

// A motion, shown by its name: unknown where it has none.
#[derive(Clone, Copy, Debug, PartialEq, Eq)]
pub struct Named {
    pub motion: u8,
}

impl Named {
    ghost use Rattle.motions.specs.Shown.{shown};

    // The name, or unknown, as a text.
    fn text(self) -> &'static str
        ensures { result.now ≡ shown self }
    {
        name_of(self.motion)
            .and_then(|name| str::from_utf8(name).ok())
            .unwrap_or("unknown")
    }
}

impl fmt::Display for Named {
    ghost use Rattle.std.specs.Prelude.{Some};
    ghost use Rattle.motions.specs.Shown.{shown};

    ghost output = { λ n. Some (shown n) };

    fn fmt<W: fmt::Write>(&self, f: &mut fmt::Formatter<W>) -> fmt::Result {
        f.write_str(self.text())
    }
}
