// explain: tells the author of a plan, in words, what is found of it against the bench permit: where a refused text is
// wrong and by which rule, or what the permit allows in place of the motion that it lacks. Several texts may be given,
// with a form feed between them.
#![tactic(auto)]

mod judging;
mod showing;
mod wording;

use bench::bench_permit;
use judging::explain;
use std::io::Read;

// More than the longest text, so that a longer one is told apart.
const INPUT: u64 = 65_536;

// No text of a plan has this byte.
const FORM_FEED: u8 = 12;

fn main(rt: HostRuntime) -> anyhow::Result<()> {
    let mut input = Vec::new(rt.alloc());
    rt.stdin().take(INPUT).read_to_end(&mut input)?;
    let permit = bench_permit();
    for text in input.split(|b| *b == FORM_FEED) {
        explain(&rt, text, &permit)?;
    }
    Ok(())
}
