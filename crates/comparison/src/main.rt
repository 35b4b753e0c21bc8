// comparison: each line of standard input is a case, a word and numbers; for each line, one line with the answer.
//
//     vet TABLE
//     search ROWS MOTIONS PLAN PERMIT
//     count ROWS MOTIONS PLAN PERMIT
//     gate PLAN PERMIT CERTIFICATE
//     history ADMISSIONS (PLAN PERMIT CERTIFICATE).. CALLS (CALL CONTROLLER ARGUMENT)..
//
// A table is 0 STATES ROWS (FROM MOTION TO).. or 1 RECORDS (KIND ARGUMENT)..; a certificate ROWS (STATE SET BACK BY)...
// The calls are 0 admit, 1 start, 2 release, 3 done, 4 failed, 5 rest.
#![tactic(auto)]

mod admissions;
mod calls;
mod histories;
mod replies;
mod searching;
mod vetting;

use admissions::gated;
use anyhow::anyhow;
use cases::{Numbers, answer_lines};
use histories::history;
use searching::{counted, searched, shown};
use std::alloc::Global;
use vetting::vetted;

// The answer to a line.
fn answered(heap: Global, line: &str) -> anyhow::Result<String> {
    let Some((kind, rest)) = line.split_once(' ') else {
        return Err(anyhow!("a line without numbers"));
    };
    let mut numbers = Numbers::of::<u64>(heap, rest)?;
    // Kept: a table of functions would name each word and its function once too, and need all to take the same.
    match kind {
        "vet" => vetted(heap, &mut numbers),
        "search" => searched(heap, &mut numbers, shown),
        "count" => searched(heap, &mut numbers, counted),
        "gate" => gated(heap, &mut numbers),
        "history" => history(heap, &mut numbers),
        _ => Err(anyhow!("no such kind of case")),
    }
}

fn main(rt: HostRuntime) -> anyhow::Result<()> {
    answer_lines(rt.alloc(), rt.stdin(), rt.stdout(), answered)
}
