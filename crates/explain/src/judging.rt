// Reading a plan, searching it, and saying what came of it.
use crate::showing::{Allowed, Names, Printed};
use crate::wording::Rule;
use certificate::Row;
use common::{Located, Numbered};
use desk::{Found, Plan, find, plan_of};
use hints::{Spot, allowed_after};
use lexer::TextFault;
use motions::Named;
use process::Process;
use std::io;

// The length of the lists for rows and motions.
const LIST: usize = 1_024;

// The line around a place, which stands at that column of it, and marks under the token there.
fn show_line(rt: &impl Print, spot: Spot<'_>, column: usize) -> io::Result<()> {
    println!(rt; "{}", Printed(spot.line()))?;
    let before = column.saturating_sub(1);
    let marks = spot.token_len();
    println!(rt; "{:before$}{:^>marks$}", "", "")
}

// A refused text: where, what stands there, and the rule. A text that is too long is at fault as a whole.
fn tell_refused(rt: &impl Print, text: &[u8], at: Located<TextFault>) -> io::Result<()> {
    let number = at.fault.number();
    let rule = Rule {
        fault: at.fault,
        at_end: at.place >= text.len(),
    };
    if let TextFault::TooLong = at.fault {
        return println!(rt; "refused {number}:\n{rule}");
    }
    let spot = Spot {
        text,
        place: at.place,
    };
    let position = spot.position();
    println!(rt;
        "refused {number} at line {}, column {}:",
        position.line, position.column
    )?;
    show_line(rt, spot, position.column)?;
    println!(rt; "{rule}")
}

// A plan beyond the permit: the order shown, and what the permit allows in place of its last motion.
fn tell_beyond<Q: Process>(
    rt: &impl Print,
    name: &[u8],
    permit: &Q,
    shown: &[u8],
) -> io::Result<()> {
    let Some((last, before)) = shown.split_last() else {
        return Ok(());
    };
    println!(rt;
        "plan {} is beyond the permit. A shortest order that the permit lacks:{}",
        Printed(name),
        Names(shown)
    )?;
    if before.is_empty() {
        print!(rt; "At the start the permit allows")?;
    } else {
        print!(rt; "After{} the permit allows", Names(before))?;
    }
    let allowed = allowed_after(permit, before);
    println!(rt;
        "{}, and not {}.",
        Allowed(&allowed),
        Named { motion: *last }
    )
}

// A plan, searched against the permit.
fn tell_search<Q: Process>(
    rt: &(impl Print + AllocGlobal),
    plan: &Plan<'_>,
    permit: &Q,
) -> anyhow::Result<()> {
    let mut rows = vec![in rt.alloc(); Row::empty(); LIST]?;
    let mut motions = vec![in rt.alloc(); 0u8; LIST]?;
    match find(&plan.table, permit, &mut rows, &mut motions) {
        Ok(Found::Within(rows)) => {
            let name = Printed(plan.name);
            println!(rt;
                "plan {name} is within the permit, by a certificate of {} rows.",
                rows.len()
            )?;
        }
        Ok(Found::Beyond(motions)) => tell_beyond(rt, plan.name, permit, motions)?,
        Err(fault) => {
            let number = fault.number();
            println!(rt; "refused {number}: the search needs more than {LIST} rows or motions.")?;
        }
    }
    Ok(())
}

// What is found of a text.
pub(crate) fn explain<Q: Process>(
    rt: &(impl Print + AllocGlobal),
    text: &[u8],
    permit: &Q,
) -> anyhow::Result<()> {
    match plan_of(text) {
        Ok(plan) => tell_search(rt, &plan, permit),
        Err(at) => Ok(tell_refused(rt, text, at)?),
    }
}
