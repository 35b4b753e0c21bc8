// Two small tables, and what they mean.
ghost use Rattle.std.specs.Prelude.{◌≡◌};
ghost use Rattle.formtable.specs.Examples.{ChoiceLoopMeans, SilentLoopRefused, choice_loop, silent_loop};

use crate::record::{Form, Record};

// rec x. tau. x: refused, since no motion guards x.
pub fn silent_loop() -> [Record; 3]
    ensures records { result ≡ silent_loop }
    ensures refused { SilentLoopRefused }
{
    [Form::Rec, Form::Tau, Form::Go(0)].map(Record::from)
}

// rec x. 1. (x + 2. 0): accepted.
pub fn choice_loop() -> [Record; 6]
    ensures records { result ≡ choice_loop }
    ensures means { ChoiceLoopMeans }
{
    [
        Form::Rec,
        Form::Do(1),
        Form::Or(4),
        Form::Go(0),
        Form::Do(2),
        Form::End,
    ]
    .map(Record::from)
}
