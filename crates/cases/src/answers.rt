// The loop over the lines of the input.
use std::alloc::Global;
use std::fmt;
use std::io::{BufRead, BufReader, BufWriter, Read, Write};

// Answers each line of the input by a line of the output.
// No contract says what is read and printed: that is only run.
pub fn answer_lines<I, O, A, F>(heap: Global, input: I, output: O, answer: F) -> anyhow::Result<()>
where
    I: Read + Drop,
    O: Write + Drop,
    A: fmt::Display + Drop,
    F: Fn(Global, &str) -> anyhow::Result<A>,
    requires { F.IsAlwaysCallable answer }
{
    let mut out = BufWriter::new(heap, output)?;
    for line in BufReader::new(heap, input)?.lines(heap) {
        let told = answer(heap, line?.as_str())?;
        writeln!(out, "{told}")?;
    }
    out.flush()?;
    Ok(())
}
