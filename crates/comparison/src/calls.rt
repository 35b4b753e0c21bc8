// The calls of a history.
ghost use Rattle.std.specs.Prelude.{◌≡◌, Some, None, MatchResult};
ghost use Rattle.comparison.specs.Calls.{call_of, ReadsTurn};

use anyhow::anyhow;
use cases::{Numbers, Written};

// One of the six calls: admit names the admission, done and failed the slip, by its place among those that are out.
#[derive(Clone, Copy)]
pub enum Call {
    Admit(usize),
    Start,
    Release(u8),
    Done(usize),
    Failed(usize),
    Rest,
}

// CALL with its ARGUMENT
impl TryFrom<(u8, u8)> for Call {
    type Error = anyhow::Error;

    ghost try_from_gives = { λ written r. MatchResult r (λ call. call_of written.0 written.1 ≡ Some call) (λ _. call_of written.0 written.1 ≡ None) };

    fn try_from(written: (u8, u8)) -> anyhow::Result<Call> {
        match written {
            (0, which) => Ok(Call::Admit(which as usize)),
            (1, _) => Ok(Call::Start),
            (2, motion) => Ok(Call::Release(motion)),
            (3, which) => Ok(Call::Done(which as usize)),
            (4, which) => Ok(Call::Failed(which as usize)),
            (5, _) => Ok(Call::Rest),
            _ => Err(anyhow!("no such call")),
        }
    }
}

// A call on one of the controllers.
#[derive(Clone, Copy)]
pub struct Turn {
    pub who: usize,
    pub call: Call,
}

// CALL CONTROLLER ARGUMENT
impl Written for Turn {
    type Fault = anyhow::Error;

    ghost Reads = { ReadsTurn };

    // an error here is only text, which says nothing of the numbers
    ghost Lacks = { λ _ _. Unit {0} };

    fn read(numbers: &mut Numbers) -> anyhow::Result<Turn> {
        let kind = u8::read(numbers)?;
        let who = u16::read(numbers)? as usize;
        let argument = u8::read(numbers)?;
        let call = Call::try_from((kind, argument))?;
        Ok(Turn { who, call })
    }
}
