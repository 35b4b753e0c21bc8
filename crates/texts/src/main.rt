// texts: each line of standard input has the length of a record list, a space and a text in which a bar stands for a
// line feed; for each line, one line with what the reader answers: the plan's name and its records, or the refusal.
#![tactic(auto)]

use anyhow::anyhow;
use cases::{Shown, answer_lines};
use formtable::Record;
use reader::read;
use std::alloc::Global;
use std::fmt;

// What stands in the list before a text is read.
const OLD: Record = Record {
    kind: 9,
    argument: 9,
};

// The kinds and arguments of records, each after a space.
#[derive(Clone, Copy)]
struct Records<'a>(&'a [Record]);

impl fmt::Display for Records<'_> {
    fn fmt<W: fmt::Write>(&self, f: &mut fmt::Formatter<W>) -> fmt::Result {
        for record in self.0 {
            write!(f, " {} {}", record.kind, record.argument)?;
        }
        Ok(())
    }
}

// A name, byte by byte.
#[derive(Clone, Copy)]
struct Name<'a>(&'a [u8]);

impl fmt::Display for Name<'_> {
    fn fmt<W: fmt::Write>(&self, f: &mut fmt::Formatter<W>) -> fmt::Result {
        for b in self.0 {
            write!(f, "{}", *b as char)?;
        }
        Ok(())
    }
}

// The answer to a line.
fn answered(heap: Global, line: &str) -> anyhow::Result<String> {
    let Some((length, written)) = line.split_once(' ') else {
        return Err(anyhow!("a line without a space"));
    };
    let text: Vec<u8> = written
        .bytes()
        .map(|b| if b == b'|' { b'\n' } else { b })
        .collect(heap)?;
    let mut records = vec![in heap; OLD; length.parse::<u16>()? as usize]?;
    match read(&text, &mut records) {
        Ok(plan) => Ok(format!(in heap;
            "{} {}{}",
            Name(plan.name),
            plan.count,
            Records(&records)
        )?),
        Err(at) => Ok(format!(in heap; "refused {}{}", Shown(&at), Records(&records))?),
    }
}

fn main(rt: HostRuntime) -> anyhow::Result<()> {
    answer_lines(rt.alloc(), rt.stdin(), rt.stdout(), answered)
}
