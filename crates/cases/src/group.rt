//! Groups, cases and their fields.
use crate::refusal::Fault;
use std::alloc::Global;

/// A key with its text, which begins at a line.
#[derive(Drop)]
pub struct Field {
    pub line: usize,
    pub key: String,
    pub text: String,
}

/// What is done, a verb and its words, and the fields behind it.
#[derive(Drop)]
pub struct Case {
    pub line: usize,
    pub verb: String,
    pub words: String,
    pub fields: Vec<Field>,
}

/// Cases under one name.
#[derive(Drop)]
pub struct Group {
    pub name: String,
    pub cases: Vec<Case>,
}

impl Case {
    /// The text of a field, if the case has it.
    pub fn text(&self, key: &str) -> Option<&str> {
        for field in &self.fields {
            if field.key.as_str() == key {
                return Some(field.text.as_str());
            }
        }
        None
    }

    /// The text of a field, which is empty if the case does not have it.
    pub fn text_or_empty(&self, key: &str) -> &str {
        self.text(key).unwrap_or("")
    }

    /// The text of a field that each case has to have.
    ///
    /// # Errors
    ///
    /// The line of the case if it has no such field.
    pub fn answer(&self, key: &str) -> Result<&str, Fault> {
        match self.text(key) {
            Some(text) => Ok(text),
            None => Err(self.refused("a case without its answer")),
        }
    }

    /// The number that a field has, or this one if the case has no such field.
    ///
    /// # Errors
    ///
    /// The line of the case if the field is no number.
    pub fn number(&self, key: &str, otherwise: u64) -> Result<u64, Fault> {
        match self.text(key) {
            Some(text) => self.number_of(text),
            None => Ok(otherwise),
        }
    }

    /// The number of a field that each case has to have.
    ///
    /// # Errors
    ///
    /// The line of the case if it has no such field, or if the field is no number.
    pub fn number_answer(&self, key: &str) -> Result<u64, Fault> {
        self.number_of(self.answer(key)?)
    }

    /// The number that a text is.
    fn number_of(&self, text: &str) -> Result<u64, Fault> {
        text.parse().map_err(|_| self.refused("no number"))
    }

    /// The words, of which each is between blanks; one between quotation marks may have blanks or be empty.
    ///
    /// # Errors
    ///
    /// The line of the case if a quotation mark stands without another, or `Memory` if allocation fails.
    pub fn split_words(&self, alloc: Global) -> Result<Vec<&str>, Fault> {
        let mut words = Vec::new(alloc);
        let mut is_quoted = false;
        for part in self.words.split('"') {
            if is_quoted {
                words.push(part)?;
            } else {
                for word in part.split_whitespace() {
                    words.push(word)?;
                }
            }
            is_quoted = !is_quoted;
        }
        if !is_quoted {
            return Err(self.refused("a quotation mark without another"));
        }
        Ok(words)
    }

    /// The refusal of this case.
    pub fn refused(&self, why: &'static str) -> Fault {
        Fault::At {
            line: self.line,
            why,
        }
    }

    /// Refuses a field whose key is none of these, or that stands twice.
    ///
    /// # Errors
    ///
    /// The line of the first such field.
    pub fn check_keys(&self, keys: &[&str]) -> Result<(), Fault> {
        for (at, field) in self.fields.iter().enumerate() {
            let key = field.key.as_str();
            if !is_among(key, keys) {
                return Err(Fault::At {
                    line: field.line,
                    why: "an unknown line",
                });
            }
            for earlier in self.fields.iter().take(at) {
                if earlier.key.as_str() == key {
                    return Err(Fault::At {
                        line: field.line,
                        why: "a line that stands twice",
                    });
                }
            }
        }
        Ok(())
    }
}

/// Whether a word is one of these.
pub(crate) fn is_among(word: &str, words: &[&str]) -> bool {
    for other in words {
        if *other == word {
            return true;
        }
    }
    false
}
