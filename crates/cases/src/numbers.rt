// The numbers of a line, and how parts of a case are read from them.
ghost use Rattle.std.specs.Prelude.{◌≡◌, ℕ, List, IfOk, IfErr, alloc_error};
ghost use Rattle.cases.specs.declared.numbers.LineFault.TheVariants.{NoMemory};
ghost use Rattle.cases.specs.Line.{IsLine};
ghost use Rattle.cases.specs.Shown.{told};
ghost use Rattle.cases.specs.Reading.{ReadsNumber, Ended, LacksNumber, ReadsList, LacksList};

use std::alloc::{AllocError, Global};
use std::error::Error;
use std::fmt;
use std::marker::Model;
use std::str::FromStr;
use std::vec::IntoIter;

// Why a part cannot be read.
#[derive(Clone, Copy, Debug, PartialEq, Eq)]
pub enum LineFault {
    // The line has ended.
    Missing,
    // A number has more than so many bits.
    TooWide(u32),
    NoMemory,
}

impl fmt::Display for LineFault {
    ghost output = { told };

    fn fmt<W: fmt::Write>(&self, f: &mut fmt::Formatter<W>) -> fmt::Result {
        match self {
            LineFault::Missing => write!(f, "a number is missing"),
            LineFault::TooWide(bits) => write!(f, "a number is over {bits} bits"),
            LineFault::NoMemory => write!(f, "{AllocError}"),
        }
    }
}

impl Error for LineFault {}

impl From<AllocError> for LineFault {
    ghost from_gives = { λ _ e. e ≡ NoMemory };

    fn from(_error: AllocError) -> LineFault {
        LineFault::NoMemory
    }
}

// The numbers that are left of a line, in 16 bits each or in 64.
#[derive(Drop)]
enum Left {
    Short(IntoIter<u16>),
    Long(IntoIter<u64>),
}

// The numbers of a line that are left, and the heap for what they write.
#[derive(Drop)]
pub struct Numbers {
    left: Left,
    heap: Global,
}

impl Model for Numbers {
    ghost use Rattle.std.specs.Prelude.{ℕ, List};
    ghost use Rattle.cases.specs.Left.{left_of};

    ghost Value = { List ℕ };

    ghost view = { λ n. left_of n.left };
}

// The words of a line, each read as an N and held as a K.
fn parsed<N: FromStr + Into<K>, K: Drop>(heap: Global, line: &str) -> anyhow::Result<Vec<K>>
where
    N::Err: Error,
    ensures { IfOk result (λ all. IsLine N.from_str_gives N.converts line.now all.items) }
{
    let mut all = Vec::new(heap);
    for word in line.split_whitespace() {
        all.push(word.parse::<N>()?.into())?;
    }
    Ok(all)
}

impl Numbers {
    // The numbers of a line, each read as an N.
    pub fn of<N: FromStr + Into<u64>>(heap: Global, line: &str) -> anyhow::Result<Numbers>
    where
        N::Err: Error,
        ensures { IfOk result (IsLine N.from_str_gives N.converts line.now) }
    {
        let left = Left::Long(parsed::<N, u64>(heap, line)?.into_iter());
        Ok(Numbers { left, heap })
    }

    // The numbers of a line of none over 16 bits, which are held in as many.
    pub fn of_short(heap: Global, line: &str) -> anyhow::Result<Numbers>
        ensures { IfOk result (IsLine ⟦<u16 as FromStr>⟧.from_str_gives (λ x n. n ≡ x) line.now) }
    {
        let left = Left::Short(parsed::<u16, u16>(heap, line)?.into_iter());
        Ok(Numbers { left, heap })
    }
}

// A part of a case, as a line writes it in numbers.
pub trait Written {
    type Fault;

    // the numbers begin with a writing of x, and are the last ones behind it
    ghost Reads: { List ℕ → Self → List ℕ → Type 0 };

    // the numbers do not begin with any, by this fault
    ghost Lacks: { List ℕ → Self.Fault → Type 0 };

    fn read(numbers: &mut Numbers) -> Result<Self, Self::Fault>
        ensures ok { IfOk result (λ x. Reads numbers.old x numbers.new) }
        ensures err { IfErr result (Lacks numbers.old) };
}

impl Written for u64 {
    type Fault = LineFault;

    ghost Reads = { ReadsNumber };

    ghost Lacks = { Ended };

    fn read(numbers: &mut Numbers) -> Result<u64, LineFault> {
        match &mut numbers.left {
            Left::Short(left) => left.next().map(u64::from),
            Left::Long(left) => left.next(),
        }
        .ok_or(LineFault::Missing)
    }
}

impl Written for u8 {
    type Fault = LineFault;

    ghost Reads = { ReadsNumber };

    ghost Lacks = { LacksNumber 8 };

    #[tactic(auto, using(crate::proofs::Lacking::lacks_at_end))]
    fn read(numbers: &mut Numbers) -> Result<u8, LineFault> {
        u8::try_from(u64::read(numbers)?).map_err(|_| LineFault::TooWide(u8::BITS))
    }
}

impl Written for u16 {
    type Fault = LineFault;

    ghost Reads = { ReadsNumber };

    ghost Lacks = { LacksNumber 16 };

    #[tactic(auto, using(crate::proofs::Lacking::lacks_at_end))]
    fn read(numbers: &mut Numbers) -> Result<u16, LineFault> {
        u16::try_from(u64::read(numbers)?).map_err(|_| LineFault::TooWide(u16::BITS))
    }
}

// A list: its length, and its parts.
impl<T: Written + Drop> Written for Vec<T>
where
    T::Fault: From<LineFault> + From<AllocError>,
{
    type Fault = T::Fault;

    ghost Reads = { λ old v new. ReadsList T.Reads old v.items new };

    ghost Lacks = { LacksList T.Reads T.Lacks ⟦<T::Fault as From<LineFault>>⟧.from_gives (⟦<T::Fault as From<AllocError>>⟧.from_gives alloc_error) };

    fn read(numbers: &mut Numbers) -> Result<Vec<T>, T::Fault> {
        let count = u16::read(numbers)?;
        let mut parts = Vec::new(numbers.heap);
        for _ in 0..count {
            let part = T::read(numbers)?;
            parts.push(part).map_err(AllocError::from)?;
        }
        Ok(parts)
    }
}
