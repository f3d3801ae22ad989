//! What the words of a command line ask for.
use bidegree::{Class, Shape};
use cases::{Case, Differences, Fault};
use ext_words::{Build, Classes, Command, Common, WordsFault, parse, remark, remark_on_classes};
use std::alloc::Global;
use std::str::from_utf8;

/// What differs between what the words of a case ask for and its field `asks`, which is `nothing` if they are outside the grammar; and
/// between the second line on standard error and the one that the case has, or none where it has the field `quiet`.
pub(crate) fn asked_difference(alloc: Global, case: &Case) -> Result<Option<String>, Fault> {
    case.check_keys(&["asks", "!", "quiet"])?;
    let words = case.split_words(alloc)?;
    let asked = match parse(alloc, words.as_slice()) {
        Ok(command) => told(alloc, &command)?,
        Err(WordsFault::Words) => String::from_str(alloc, "nothing")?,
        Err(WordsFault::Memory) => return Err(Fault::Memory),
    };
    let mut all = Differences::none(alloc);
    all.compare_texts("asks", asked.as_str(), case.answer("asks")?)?;
    if case.text("!").is_some() || case.text("quiet").is_some() {
        let told = second_line(alloc, words.as_slice())?;
        all.compare_texts("line", told.as_str(), case.text_or_empty("!"))?;
    }
    Ok(all.into_line())
}

/// The second line on standard error, of words that give no command or name a class past the range, and else nothing.
fn second_line(alloc: Global, words: &[&str]) -> Result<String, Fault> {
    let mut line = remark(alloc, words)?;
    if line.is_none() {
        line = remark_on_classes(alloc, words)?;
    }
    let bytes = line.unwrap_or(Vec::new(alloc));
    Ok(String::from_str(alloc, from_utf8(bytes.as_slice()).unwrap_or("no text"))?)
}

/// A command: its name, then what it has of a seed, the greatest row and degree, whether its squares are those of stems, the number of
/// workers, whether squares are kept, and its classes.
fn told(alloc: Global, command: &Command) -> Result<String, Fault> {
    let mut text = String::new(alloc);
    match command {
        Command::Sphere(common) => tell(&mut text, "sphere", common)?,
        Command::Resolve(common) => tell(&mut text, "resolve", common)?,
        Command::Dump(common) => tell(&mut text, "dump", common)?,
        Command::Products { common, by } => tell_products(&mut text, "products", common, by)?,
        Command::Table { common, by } => tell_products(&mut text, "table", common, by)?,
        Command::Massey { common, a, b, c } => {
            tell(&mut text, "massey", common)?;
            tell_three(&mut text, a, b, c)?;
        }
        Command::Product { workers, a, x } => {
            write!(text, "product, workers {workers}")?;
            tell_class(&mut text, "a", a)?;
            tell_class(&mut text, "x", x)?;
        }
        Command::Bracket { workers, a, b, c } => {
            write!(text, "bracket, workers {workers}")?;
            tell_three(&mut text, a, b, c)?;
        }
        Command::Check => text.push_str("check")?,
        Command::Build(Build::Sum) => text.push_str("build sum")?,
        Command::Build(Build::Tensor) => text.push_str("build tensor")?,
        Command::Build(Build::Dual) => text.push_str("build dual")?,
        Command::Build(Build::Shift(degrees)) => write!(text, "build shift {degrees}")?,
        Command::Sample { n, common } => {
            write!(text, "sample {n}")?;
            tell(&mut text, "", common)?;
        }
        Command::Migrate => text.push_str("migrate")?,
        Command::Verify(range) => write!(text, "verify, through {} {}", range.s, range.t)?,
        Command::Sq(product) => {
            text.push_str("sq")?;
            for number in product.numbers() {
                write!(text, " {number}")?;
            }
        }
    }
    Ok(text)
}

/// Tells the name of a command and what it has in common with others.
fn tell(text: &mut String, name: &str, common: &Common) -> Result<(), Fault> {
    let Common {
        range,
        shape,
        workers,
        save,
        live,
    } = *common;
    write!(text, "{name}, through {} {}", range.s, range.t)?;
    if shape == Shape::Stems {
        text.push_str(" in stems")?;
    }
    write!(text, ", workers {workers}")?;
    if save {
        text.push_str(", saved")?;
    }
    if live {
        text.push_str(", live")?;
    }
    Ok(())
}

/// Tells the name of a command of products, what it has in common with others, and its classes.
fn tell_products(
    text: &mut String,
    name: &str,
    common: &Common,
    by: &Classes,
) -> Result<(), Fault> {
    tell(text, name, common)?;
    for class in by.as_slice() {
        tell_class(text, "by", class)?;
    }
    Ok(())
}

/// Tells the classes of a bracket.
fn tell_three(text: &mut String, a: &Class, b: &Class, c: &Class) -> Result<(), Fault> {
    tell_class(text, "a", a)?;
    tell_class(text, "b", b)?;
    tell_class(text, "c", c)
}

/// Tells a class and what it is to the command.
fn tell_class(text: &mut String, name: &str, class: &Class) -> Result<(), Fault> {
    let Class { s, t, i } = *class;
    write!(text, ", {name} ({s},{t},{i})")?;
    Ok(())
}
