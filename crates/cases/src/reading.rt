//! A text of cases, line by line.
use crate::group::{Case, Field, Group, is_among};
use crate::refusal::Fault;
use std::alloc::Global;

/// A text that later lines name.
#[derive(Drop)]
struct Named {
    name: String,
    text: String,
}

/// What a line that begins with `+` goes on with.
#[derive(Clone, Copy)]
enum Open {
    Nothing,
    Name,
    Field,
}

/// What has been read.
#[derive(Drop)]
struct Reader {
    groups: Vec<Group>,
    names: Vec<Named>,
    open: Open,
}

/// The groups of a text of cases, whose verbs are these.
///
/// A line is empty, or a comment, which begins with `#`, or a key with its text behind a blank. The key `group` begins a group, `let NAME TEXT` names a text,
/// which each later `$NAME` stands for, and a verb begins a case; any other key is a field of the case. `+ TEXT` puts more at the end of the text before it,
/// and `+9 TEXT` nine times. A line that begins with `>` or `!` is a line of the field of that name, with its end; `~` puts the rest of its line there
/// without an end.
///
/// # Errors
///
/// The first line that is none of these, line 0 if there is no case, or `Memory` if allocation fails.
pub fn read(alloc: Global, text: &str, verbs: &[&str]) -> Result<Vec<Group>, Fault> {
    let mut reader = Reader {
        groups: Vec::new(alloc),
        names: Vec::new(alloc),
        open: Open::Nothing,
    };
    let mut number: usize = 0;
    for line in text.lines() {
        number = number.saturating_add(1);
        reader.take(alloc, number, line, verbs)?;
    }
    let Reader { groups, .. } = reader;
    for group in &groups {
        if !group.cases.is_empty() {
            return Ok(groups);
        }
    }
    Err(Fault::At {
        line: 0,
        why: "no case",
    })
}

impl Reader {
    /// Takes the next line.
    fn take(
        &mut self,
        alloc: Global,
        number: usize,
        line: &str,
        verbs: &[&str],
    ) -> Result<(), Fault> {
        if line.is_empty() || line.starts_with('#') {
            return Ok(());
        }
        if let Some(rest) = line.strip_prefix('>') {
            return self.add_line(alloc, number, ">", rest, "\n");
        }
        if let Some(rest) = line.strip_prefix('!') {
            return self.add_line(alloc, number, "!", rest, "\n");
        }
        if let Some(rest) = line.strip_prefix('~') {
            return self.add_line(alloc, number, ">", rest, "");
        }
        let (key, rest) = match line.split_once(' ') {
            Some(parts) => parts,
            None => (line, ""),
        };
        if let Some(times) = key.strip_prefix('+') {
            return self.go_on(alloc, number, times, rest);
        }
        self.begin(alloc, number, key, rest, verbs)
    }

    /// Begins a group, a named text, a case or a field.
    fn begin(
        &mut self,
        alloc: Global,
        number: usize,
        key: &str,
        rest: &str,
        verbs: &[&str],
    ) -> Result<(), Fault> {
        if key == "group" {
            self.open = Open::Nothing;
            self.groups.push(Group {
                name: String::from_str(alloc, rest)?,
                cases: Vec::new(alloc),
            })?;
            return Ok(());
        }
        if key == "let" {
            return self.begin_name(alloc, number, rest);
        }
        let text = self.meant(alloc, number, rest)?;
        if is_among(key, verbs) {
            return self.begin_case(alloc, number, key, text);
        }
        self.open = Open::Field;
        let field = Field {
            line: number,
            key: String::from_str(alloc, key)?,
            text,
        };
        self.last_case(number)?.fields.push(field)?;
        Ok(())
    }

    /// Begins a named text.
    fn begin_name(&mut self, alloc: Global, number: usize, rest: &str) -> Result<(), Fault> {
        let (name, rest) = match rest.split_once(' ') {
            Some(parts) => parts,
            None => (rest, ""),
        };
        if self.named(number, name).is_ok() {
            return Err(Fault::At {
                line: number,
                why: "a name that stands twice",
            });
        }
        let text = self.meant(alloc, number, rest)?;
        self.names.push(Named {
            name: String::from_str(alloc, name)?,
            text,
        })?;
        self.open = Open::Name;
        Ok(())
    }

    /// Begins a case in the last group.
    fn begin_case(
        &mut self,
        alloc: Global,
        number: usize,
        verb: &str,
        words: String,
    ) -> Result<(), Fault> {
        let case = Case {
            line: number,
            verb: String::from_str(alloc, verb)?,
            words,
            fields: Vec::new(alloc),
        };
        self.open = Open::Nothing;
        match self.groups.last_mut() {
            Some(group) => {
                group.cases.push(case)?;
                Ok(())
            }
            None => Err(Fault::At {
                line: number,
                why: "a case before a group",
            }),
        }
    }

    /// The last case.
    fn last_case(&mut self, number: usize) -> Result<&mut Case, Fault> {
        let unknown = Fault::At {
            line: number,
            why: "an unknown line",
        };
        match self.groups.last_mut() {
            Some(group) => group.cases.last_mut().ok_or(unknown),
            None => Err(unknown),
        }
    }

    /// Puts a line at the end of a field of the last case, and makes the field if it is not there.
    fn add_line(
        &mut self,
        alloc: Global,
        number: usize,
        key: &str,
        rest: &str,
        end: &str,
    ) -> Result<(), Fault> {
        self.open = Open::Nothing;
        let case = self.last_case(number)?;
        for field in &mut case.fields {
            if field.key.as_str() == key {
                field.text.push_str(rest)?;
                field.text.push_str(end)?;
                return Ok(());
            }
        }
        let mut text = String::from_str(alloc, rest)?;
        text.push_str(end)?;
        case.fields.push(Field {
            line: number,
            key: String::from_str(alloc, key)?,
            text,
        })?;
        Ok(())
    }

    /// Puts more at the end of the text that is open, so many times, or once if no number is given.
    fn go_on(
        &mut self,
        alloc: Global,
        number: usize,
        times: &str,
        rest: &str,
    ) -> Result<(), Fault> {
        let more = self.meant(alloc, number, rest)?;
        let times = if times.is_empty() { "1" } else { times };
        let Ok(times) = times.parse::<u32>() else {
            return Err(Fault::At {
                line: number,
                why: "no number",
            });
        };
        match self.open {
            Open::Name => {
                if let Some(named) = self.names.last_mut() {
                    return push_times(&mut named.text, more.as_str(), times);
                }
            }
            Open::Field => {
                if let Some(field) = self.last_case(number)?.fields.last_mut() {
                    return push_times(&mut field.text, more.as_str(), times);
                }
            }
            Open::Nothing => {}
        }
        Err(Fault::At {
            line: number,
            why: "nothing to go on with",
        })
    }

    /// A text in which each `$NAME` gave way to the text of that name.
    fn meant(&self, alloc: Global, number: usize, text: &str) -> Result<String, Fault> {
        let mut all = String::new(alloc);
        let mut is_first = true;
        for part in text.split('$') {
            if is_first {
                all.push_str(part)?;
            } else {
                let length = name_length(part);
                let (Some(name), Some(rest)) = (part.get(..length), part.get(length..)) else {
                    return Err(Fault::At {
                        line: number,
                        why: "an unknown name",
                    });
                };
                all.push_str(self.named(number, name)?)?;
                all.push_str(rest)?;
            }
            is_first = false;
        }
        Ok(all)
    }

    /// The text of a name.
    fn named(&self, number: usize, name: &str) -> Result<&str, Fault> {
        for named in &self.names {
            if named.name.as_str() == name {
                return Ok(named.text.as_str());
            }
        }
        Err(Fault::At {
            line: number,
            why: "an unknown name",
        })
    }
}

/// Appends a text so many times.
fn push_times(text: &mut String, more: &str, times: u32) -> Result<(), Fault> {
    for _ in 0..times {
        text.push_str(more)?;
    }
    Ok(())
}

/// How many capital letters, digits and `_` a text begins with.
fn name_length(text: &str) -> usize {
    let mut length: usize = 0;
    for byte in text.bytes() {
        if !matches!(byte, b'A'..=b'Z' | b'0'..=b'9' | b'_') {
            break;
        }
        length = length.saturating_add(1);
    }
    length
}
