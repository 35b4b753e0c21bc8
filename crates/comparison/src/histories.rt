// What controllers answer to a list of calls.
use crate::admissions::Admission;
use crate::calls::{Call, Turn};
use crate::replies::{Denial, Grant, Reply};
use cases::{Numbers, Written};
use controller::{Controller, DriverFault, Slip};
use std::alloc::{AllocFailed, Global};

// Asks for a motion, and keeps the slip with those that are out.
fn release(c: &mut Controller, out: &mut Vec<Slip>, motion: u8) -> Result<Grant, Denial> {
    let slip = c.release(motion)?;
    let number = slip.number();
    match out.push(slip) {
        Ok(()) => Ok(Grant::Slip(number)),
        Err(AllocFailed { value }) => {
            let _ = c.done(value);
            Err(Denial::Impossible)
        }
    }
}

// Hands the slip with this place among those that are out to a call.
fn hand_in<F: FnOnce(Slip) -> Result<(), DriverFault>>(
    out: &mut Vec<Slip>,
    which: usize,
    call: F,
) -> Result<(), Denial>
    requires { F.IsAlwaysCallable call }
{
    if which >= out.len() {
        return Err(Denial::Impossible);
    }
    call(out.remove(which))?;
    Ok(())
}

// Makes a call.
fn asked(
    c: &mut Controller,
    admissions: &[Admission],
    out: &mut Vec<Slip>,
    call: Call,
) -> Result<Grant, Denial> {
    match call {
        Call::Admit(which) => {
            let a = admissions.get(which).ok_or(Denial::Impossible)?;
            c.admit(&a.plan, &a.permit, &a.rows)?;
        }
        Call::Start => c.start()?,
        Call::Release(motion) => return release(c, out, motion),
        Call::Done(which) => hand_in(out, which, |slip| c.done(slip))?,
        Call::Failed(which) => hand_in(out, which, |slip| c.failed(slip))?,
        Call::Rest => c.rest()?,
    }
    Ok(Grant::Plain)
}

// Makes all calls, with a reply in the place of each.
fn played(
    controllers: &mut [Controller],
    admissions: &[Admission],
    out: &mut Vec<Slip>,
    turns: &[Turn],
    replies: &mut [Reply],
) {
    for (turn, reply) in turns.iter().zip(replies.iter_mut()) {
        if let Some(c) = controllers.get_mut(turn.who) {
            *reply = Reply(asked(c, admissions, out, turn.call));
        }
    }
}

// Hands in every slip that is still out.
// Kept: a `for` over the list would drop the part of it that is left, and a slip that is not spent may not be
// dropped.
fn hand_back(c: &mut Controller, mut out: Vec<Slip>) {
    while let Some(slip) = out.pop() {
        let _ = c.done(slip);
    }
    out.destroy_empty();
}

// Plays a history on three controllers from the factory; no slip is left out.
fn play(heap: Global, admissions: &[Admission], turns: &[Turn], replies: &mut [Reply]) {
    let mut controllers = [Controller::new(), Controller::new(), Controller::new()];
    let mut out = Vec::new(heap);
    played(&mut controllers, admissions, &mut out, turns, replies);
    hand_back(&mut controllers[0], out);
}

// The replies, with commas between.
fn shown(heap: Global, replies: &[Reply]) -> anyhow::Result<String> {
    let mut line = String::new(heap);
    for (i, reply) in replies.iter().enumerate() {
        if i > 0 {
            line.push_str(", ")?;
        }
        write!(line, "{reply}")?;
    }
    Ok(line)
}

// The answer to ADMISSIONS (PLAN PERMIT CERTIFICATE).. CALLS (CALL CONTROLLER ARGUMENT)...
pub(crate) fn history(heap: Global, numbers: &mut Numbers) -> anyhow::Result<String> {
    let admissions = Vec::<Admission>::read(numbers)?;
    let turns = Vec::<Turn>::read(numbers)?;
    let mut replies = vec![in heap; Reply(Err(Denial::Impossible)); turns.len()]?;
    play(heap, &admissions, &turns, &mut replies);
    shown(heap, &replies)
}
