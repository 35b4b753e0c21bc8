// drive: one task from beginning to end, one line a step.
#![tactic(auto)]

use common::Numbered;
use motions::Named;
use search::Answer;
use std::fmt;
use task::{Asked, Finding, Made, Reply, one_task};

// What was asked, in words.
#[derive(Clone, Copy)]
struct Call(Asked);

impl fmt::Display for Call {
    fn fmt<W: fmt::Write>(&self, f: &mut fmt::Formatter<W>) -> fmt::Result {
        match self.0 {
            Asked::AdmitFirst => write!(f, "admit first"),
            Asked::AdmitSecond => write!(f, "admit second"),
            Asked::Start => write!(f, "start"),
            Asked::Release(motion) => write!(f, "release {}", Named { motion }),
            Asked::Done(number) => write!(f, "done slip {number}"),
            Asked::Failed(number) => write!(f, "failed slip {number}"),
            Asked::Rest => write!(f, "rest"),
        }
    }
}

// What was answered, in words.
#[derive(Clone, Copy)]
struct Told(Reply);

impl fmt::Display for Told {
    fn fmt<W: fmt::Write>(&self, f: &mut fmt::Formatter<W>) -> fmt::Result {
        match self.0 {
            Ok(None) => write!(f, "granted"),
            Ok(Some(number)) => write!(f, "granted, slip {number}"),
            Err(at) => write!(f, "denied {}", at.fault.number()),
        }
    }
}

// What was found of a plan, in words; the motions are those that the permit lacks.
#[derive(Clone, Copy)]
struct Found<'a> {
    plan: &'a str,
    finding: Finding,
    motions: &'a [u8],
}

impl<'a> fmt::Display for Found<'a> {
    fn fmt<W: fmt::Write>(&self, f: &mut fmt::Formatter<W>) -> fmt::Result {
        let plan = self.plan;
        match self.finding {
            Finding::Read(count) => write!(f, "read {plan}: {count} records"),
            Finding::Vetted => write!(f, "vet {plan}: passed"),
            Finding::Searched(Answer::Within(count)) => {
                write!(f, "search {plan}: within, {count} rows")
            }
            Finding::Searched(Answer::Beyond(count)) => {
                write!(f, "search {plan}: beyond,")?;
                for &motion in self.motions.iter().take(count) {
                    write!(f, " {}", Named { motion })?;
                }
                Ok(())
            }
        }
    }
}

// The findings on a plan, one a line.
fn show_findings(
    rt: &impl Print,
    plan: &str,
    findings: &[Finding],
    motions: &[u8],
) -> anyhow::Result<()> {
    for &finding in findings {
        let found = Found {
            plan,
            finding,
            motions,
        };
        println!(rt; "{found}")?;
    }
    Ok(())
}

// The steps that were made, one a line.
fn show_steps(rt: &impl Print, steps: &[Option<Made>]) -> anyhow::Result<()> {
    for made in steps.iter().flatten() {
        println!(rt; "{}: {}", Call(made.asked), Told(made.reply))?;
    }
    Ok(())
}

fn run(rt: &impl Print) -> anyhow::Result<()> {
    let done = one_task();
    show_findings(rt, "first", &done.first, &done.motions)?;
    show_steps(rt, &done.first_steps)?;
    show_findings(rt, "second", &done.second, &done.motions)?;
    show_steps(rt, &done.second_steps)?;
    show_findings(rt, "third", &done.third, &done.motions)
}

fn main(rt: HostRuntime) -> anyhow::Result<()> {
    run(&rt)
}
