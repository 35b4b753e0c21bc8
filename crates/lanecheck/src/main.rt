// lanecheck: reads a plan from standard input and reports on it against the bench permit.
#![tactic(auto)]

use bench::bench_permit;
use desk::Desk;
use std::io::{Read, Write};

// One byte more than a text may have, so that a longer one is told apart.
const INPUT: u64 = 16_385;

// The length of the lists for records, rows and motions.
const LIST: usize = 1_024;

// The longest report: a name line of at most 16 bytes, "(beyond", at most 1,024 times a space and a name of at most
// 8 letters, the bracket and the line feed: 16 + 7 + 1,024 * 9 + 2.
const OUTPUT: usize = 9_241;

fn main(rt: HostRuntime) -> anyhow::Result<()> {
    let mut text = Vec::new(rt.alloc());
    rt.stdin().take(INPUT).read_to_end(&mut text)?;
    let mut desk = Box::new(rt.alloc(), Desk::<LIST, OUTPUT>::new())?;
    rt.stdout().write_all(desk.report(&text, &bench_permit())?)?;
    Ok(())
}
