//! What differs of a case from its answer.
use crate::refusal::Fault;
use std::alloc::Global;

/// What differs of a case from its answer, as one line.
#[derive(Drop)]
pub struct Differences {
    line: String,
}

impl Differences {
    /// Nothing differs yet.
    pub fn none(alloc: Global) -> Differences {
        Differences {
            line: String::new(alloc),
        }
    }

    /// Adds how a number that has this name differs from the wanted one, if it does.
    ///
    /// # Errors
    ///
    /// `Memory` if allocation fails.
    pub fn compare_numbers(&mut self, name: &str, got: u64, wanted: u64) -> Result<(), Fault> {
        if got != wanted {
            self.name(name)?;
            write!(self.line, ": got {got}, wanted {wanted}")?;
        }
        Ok(())
    }

    /// Adds the first line in which a text that has this name differs from the wanted one, if it does.
    ///
    /// # Errors
    ///
    /// `Memory` if allocation fails.
    pub fn compare_texts(&mut self, name: &str, got: &str, wanted: &str) -> Result<(), Fault> {
        let mut got_lines = got.split('\n');
        let mut wanted_lines = wanted.split('\n');
        for number in 1..u64::MAX {
            let (got_line, wanted_line) = (got_lines.next(), wanted_lines.next());
            if got_line.is_none() && wanted_line.is_none() {
                break;
            }
            if got_line != wanted_line {
                self.name(name)?;
                write!(self.line, ", line {number}: got ")?;
                self.quote(got_line)?;
                self.line.push_str(", wanted ")?;
                return self.quote(wanted_line);
            }
        }
        Ok(())
    }

    /// What differs, or nothing if nothing does.
    pub fn into_line(self) -> Option<String> {
        let Differences { line } = self;
        if line.is_empty() { None } else { Some(line) }
    }

    /// Begins with what has this name.
    fn name(&mut self, name: &str) -> Result<(), Fault> {
        if !self.line.is_empty() {
            self.line.push_str("; ")?;
        }
        self.line.push_str(name)?;
        Ok(())
    }

    /// Adds a line of a text, or says that the text has ended.
    fn quote(&mut self, line: Option<&str>) -> Result<(), Fault> {
        match line {
            Some(line) => write!(self.line, "{line:?}")?,
            None => self.line.push_str("no line")?,
        }
        Ok(())
    }
}
