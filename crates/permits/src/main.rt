// permits: reports on each line of standard input as a plan of its own, against the bench permit, or against the permit
// whose text stands in the line after a `<`.
#![tactic(auto)]

use anyhow::anyhow;
use bench::bench_permit;
use desk::{Desk, plan_of};
use std::io::{BufRead, BufReader, Write};

// The length of the lists for records, rows and motions.
const LIST: usize = 64;

// Enough for a name line and the names of as many motions as the list holds.
const OUTPUT: usize = 1_024;

// The report on a line.
fn answer<'a>(desk: &'a mut Desk<LIST, OUTPUT>, line: &str) -> anyhow::Result<&'a [u8]> {
    let Some((plan, permit)) = line.split_once('<') else {
        return Ok(desk.report(line.as_bytes(), &bench_permit())?);
    };
    match plan_of(permit.as_bytes()) {
        Ok(permit) => Ok(desk.report(plan.as_bytes(), &permit.table)?),
        Err(_) => Err(anyhow!("the text of a permit is refused")),
    }
}

fn main(rt: HostRuntime) -> anyhow::Result<()> {
    let mut desk = Box::new(rt.alloc(), Desk::<LIST, OUTPUT>::new())?;
    for line in BufReader::new(rt.alloc(), rt.stdin())?.lines(rt.alloc()) {
        rt.stdout().write_all(answer(&mut desk, line?.as_str())?)?;
    }
    Ok(())
}
