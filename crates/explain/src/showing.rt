// Parts of a text and motions, as they are shown.
use motions::Named;
use process::LAST_MOTION;
use std::fmt;

// Bytes as they are printed; what cannot be printed is a question mark.
#[derive(Clone, Copy)]
pub struct Printed<'a>(pub &'a [u8]);

impl fmt::Display for Printed<'_> {
    fn fmt<W: fmt::Write>(&self, f: &mut fmt::Formatter<W>) -> fmt::Result {
        for b in self.0 {
            match *b as char {
                c @ ' '..='~' => write!(f, "{c}")?,
                _ => write!(f, "?")?,
            }
        }
        Ok(())
    }
}

// The names of motions, each after a space.
#[derive(Clone, Copy)]
pub struct Names<'a>(pub &'a [u8]);

impl fmt::Display for Names<'_> {
    fn fmt<W: fmt::Write>(&self, f: &mut fmt::Formatter<W>) -> fmt::Result {
        for motion in self.0 {
            write!(f, " {}", Named { motion: *motion })?;
        }
        Ok(())
    }
}

// The names of the motions that are allowed, each after a space: the first is said of motion 1.
#[derive(Clone, Copy)]
pub struct Allowed<'a>(pub &'a [bool]);

impl fmt::Display for Allowed<'_> {
    fn fmt<W: fmt::Write>(&self, f: &mut fmt::Formatter<W>) -> fmt::Result {
        if !self.0.contains(&true) {
            return write!(f, " nothing");
        }
        for (motion, allowed) in (1..=LAST_MOTION).zip(self.0) {
            if *allowed {
                write!(f, " {}", Named { motion })?;
            }
        }
        Ok(())
    }
}
