// lanes: reports on each line of standard input as a plan of its own, against the bench permit.
#![tactic(auto)]

use bench::bench_permit;
use desk::Desk;
use std::io::{BufRead, BufReader, Write};

// The length of the lists for records, rows and motions.
const LIST: usize = 64;

// Enough for a name line and the names of as many motions as the list holds.
const OUTPUT: usize = 1_024;

fn main(rt: HostRuntime) -> anyhow::Result<()> {
    let mut desk = Box::new(rt.alloc(), Desk::<LIST, OUTPUT>::new())?;
    let permit = bench_permit();
    for line in BufReader::new(rt.alloc(), rt.stdin())?.lines(rt.alloc()) {
        rt.stdout()
            .write_all(desk.report(line?.as_bytes(), &permit)?)?;
    }
    Ok(())
}
