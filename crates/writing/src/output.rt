// Bytes and numbers written into a list, one behind another.
ghost use Rattle.std.specs.Prelude.{◌≡◌, ◌+◌, ◌%◌, ◌≤◌, length, decimal};

use crate::fault::OutputFault;
use crate::pieces::Piece;

// A list that is written from its front on, and the place behind what was written.
#[derive(Drop)]
pub struct Output<'a> {
    out: &'a mut [u8],
    at: usize,
    ghost within: { at ≤ length out.now },
}

// The last decimal digit, as it is written.
fn last_digit(n: usize) -> u8
    ensures { result ≡ 48 + n % 10 }
{
    b'0' + (n % 10) as u8
}

impl<'a> Output<'a> {
    ghost use Rattle.std.specs.List.{flat_map};
    ghost use Rattle.writing.specs.Output.{Begins, BeginsAt, Skips, Writes, Stays, Ends};
    ghost use Rattle.writing.specs.Pieces.{piece_text};

    // Begins at the front of the list.
    pub fn new(out: &'a mut [u8]) -> Output<'a>
        ensures { Begins out.entry 0 result }
    {
        Output { out, at: 0 }
    }

    // Begins at a place of the list; Short where the place is past the end.
    // Kept: nothing is known afterwards of a list that is lent into a Result; `new` and then `skip` keep sight of it.
    pub fn at(out: &'a mut [u8], at: usize) -> Result<Self, OutputFault>
        ensures { BeginsAt out.entry at result }
    {
        if at > out.len() {
            return Err(OutputFault::Short);
        }
        Ok(Output { out, at })
    }

    // Passes over so many bytes, and leaves them as they are; Short where there are not so many.
    pub fn skip(&mut self, count: usize) -> Result<(), OutputFault>
        ensures { Skips self.old count result self.new }
    {
        if self.out.len() - self.at < count {
            return Err(OutputFault::Short);
        }
        self.at += count;
        Ok(())
    }

    // Writes the bytes; Short where there is no room for them.
    pub fn put_bytes(&mut self, bytes: &[u8]) -> Result<(), OutputFault>
        ensures writes { Writes self.old bytes.now result self.new }
        ensures stays { Stays self.old result self.new }
    {
        let n = bytes.len();
        if self.out.len() - self.at < n {
            return Err(OutputFault::Short);
        }
        self.out[self.at..self.at + n].copy_from_slice(bytes);
        self.at += n;
        Ok(())
    }

    // Writes the number in decimal, without leading zeros.
    // Kept: of a failed `write!` nothing is promised, and Short must say that there is no room.
    pub fn put_number(&mut self, n: usize) -> Result<(), OutputFault>
        ensures writes { Writes self.old (decimal n) result self.new }
        ensures stays { Stays self.old result self.new }
    {
        let at = self.at;
        if n >= 10 {
            self.put_number(n / 10)?;
        }
        if let Err(fault) = self.put_bytes(&[last_digit(n)]) {
            self.at = at;
            return Err(fault);
        }
        Ok(())
    }

    // Writes one piece.
    pub fn put_piece(&mut self, piece: Piece<'_>) -> Result<(), OutputFault>
        ensures writes { Writes self.old (piece_text piece.entry) result self.new }
        ensures stays { Stays self.old result self.new }
    {
        match piece {
            Piece::Bytes(bytes) => self.put_bytes(bytes),
            Piece::Number(n) => self.put_number(n),
        }
    }

    // Writes the pieces one behind another.
    pub fn put_pieces(&mut self, pieces: &[Piece<'_>]) -> Result<(), OutputFault>
        ensures writes { Writes self.old (flat_map piece_text pieces.now) result self.new }
        ensures stays { Stays self.old result self.new }
    {
        let start = self.at;
        for piece in pieces {
            if let Err(fault) = self.put_piece(*piece) {
                self.at = start;
                return Err(fault);
            }
        }
        Ok(())
    }

    // The place behind what was written.
    pub fn place(&self) -> usize
        ensures { result ≡ self.now.at }
    {
        self.at
    }

    // Makes every byte behind what was written 0, and counts what was written.
    pub fn finish(self) -> usize
        ensures { Ends self.entry self.exit.0.now result }
    {
        let Output { out, at } = self;
        out[at..].fill(0);
        at
    }
}
