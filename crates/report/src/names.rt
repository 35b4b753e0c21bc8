// The names of motions, a space before each.
ghost use Rattle.std.specs.Prelude.{◌≡◌};
ghost use Rattle.std.specs.List.{flat_map};
ghost use Rattle.report.specs.Lines.{letters, spaced};
ghost use Rattle.writing.specs.Output.{Writes};

use motions::name_of;
use writing::{Output, OutputFault, Piece};

// The letters of a motion's name; none where there is no such motion.
fn letters_of(motion: u8) -> &'static [u8]
    ensures { result.now ≡ letters motion }
{
    name_of(motion).unwrap_or(b"")
}

// The names of all the motions, in order.
pub(crate) fn put_names(to: &mut Output<'_>, motions: &[u8]) -> Result<(), OutputFault>
    ensures { Writes to.old (flat_map spaced motions.now) result to.new }
{
    for motion in motions {
        to.put_pieces(&[Piece::Bytes(b" "), Piece::Bytes(letters_of(*motion))])?;
    }
    Ok(())
}
