// What an answer's line is made of.
use std::fmt;

// The words whose flag is on, each after a space.
#[derive(Clone, Copy)]
pub(crate) struct Flags<'a>(pub(crate) &'a [(&'a str, bool)]);

impl fmt::Display for Flags<'_> {
    fn fmt<W: fmt::Write>(&self, f: &mut fmt::Formatter<W>) -> fmt::Result {
        for (word, on) in self.0 {
            if *on {
                write!(f, " {word}")?;
            }
        }
        Ok(())
    }
}

// Bytes in decimal, each after a space.
#[derive(Clone, Copy)]
pub(crate) struct Bytes<'a>(pub(crate) &'a [u8]);

impl fmt::Display for Bytes<'_> {
    fn fmt<W: fmt::Write>(&self, f: &mut fmt::Formatter<W>) -> fmt::Result {
        for byte in self.0 {
            write!(f, " {byte}")?;
        }
        Ok(())
    }
}
