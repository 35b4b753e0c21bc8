// Writing at a place of a list, the rest of which stays. Each answer is the place behind what was written.
ghost use Rattle.std.specs.Prelude.{decimal};
ghost use Rattle.std.specs.List.{flat_map};
ghost use Rattle.writing.specs.Output.{Put};
ghost use Rattle.writing.specs.Pieces.{piece_text};

use crate::fault::OutputFault;
use crate::output::Output;
use crate::pieces::Piece;

// Writes the bytes; Short where there is no room for them.
pub fn put_bytes(out: &mut [u8], at: usize, bytes: &[u8]) -> Result<usize, OutputFault>
    ensures { Put out.old at bytes.now out.new result }
{
    put_piece(out, at, Piece::Bytes(bytes))
}

// Writes the number in decimal, without leading zeros.
pub fn put_number(out: &mut [u8], at: usize, n: usize) -> Result<usize, OutputFault>
    ensures { Put out.old at (decimal n) out.new result }
{
    put_piece(out, at, Piece::Number(n))
}

// Writes one piece.
pub fn put_piece(out: &mut [u8], at: usize, piece: Piece<'_>) -> Result<usize, OutputFault>
    ensures { Put out.old at (piece_text piece.entry) out.new result }
{
    put_pieces(out, at, &[piece])
}

// Writes the pieces one behind another.
pub fn put_pieces(out: &mut [u8], at: usize, pieces: &[Piece<'_>]) -> Result<usize, OutputFault>
    ensures { Put out.old at (flat_map piece_text pieces.now) out.new result }
{
    let mut to = Output::new(out);
    to.skip(at)?;
    to.put_pieces(pieces)?;
    Ok(to.place())
}
