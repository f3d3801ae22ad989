//! What is wrong with words that give no command, and which class lies past the range, each as a line of text.
ghost use Rattle.std.specs.Prelude.{◌≡◌, option_map, option_and_then, string_bytes, IfOk};
ghost use Rattle.std.specs.List.{list_all};
ghost use Rattle.ext_words.specs.Inside.CommandLine.{given_in};
ghost use Rattle.ext_words.specs.Words.{texts_of, given_of};
ghost use Rattle.ext_words.specs.Remark.{is_printable, is_shown, shown, value_names, is_right, wanted, mark, value_line, wrong_value, first_wrong, form_of, form_line, no_command_line, unknown_line, wrong_with, wrong_under, wrong_of, remark_of, class_text, past_with, past_line, sphere_line, module_line, products_line, bracket_line, class_line, remark_on_classes};

use crate::command::{Command, MAX_WORKERS};
use crate::numbers::{class_of, number_up_to, positive_up_to, product_of, seed_of, shift_of};
use crate::words::{command_of, read, words_in};
use bidegree::{Class, MAX_S, MAX_T, Range};
use clap::ArgMatches;
use memory::Memory;
use std::alloc::Global;

/// Whether a character is a printable one of ASCII.
fn is_printable(c: u8) -> bool
    ensures { result ≡ is_printable c }
{
    b' ' <= c && c <= b'~'
}

fn are_printable(word: &[u8]) -> bool
    ensures { result ≡ list_all is_printable word.now }
{
    word.iter().all(|c| is_printable(*c))
}

/// Whether a word is short and printable.
fn is_shown(word: &[u8]) -> bool
    ensures { result ≡ is_shown word.now }
{
    !word.is_empty() && word.len() <= 40 && are_printable(word)
}

/// A word as a line shows it.
fn shown(word: &str) -> &str
    ensures { result.now ≡ shown word.now }
{
    if is_shown(word.as_bytes()) {
        word
    } else {
        "a word that is not shown"
    }
}

/// The names of the commands.
const COMMANDS: &str =
    "sphere, resolve, dump, products, massey, product, bracket, check, build, sample, sq, migrate, verify and table";

/// The names of words and of options, in the order in which they are looked at.
const VALUE_NAMES: [&str; 12] = [
    "N", "S", "T", "W", "OP", "workers", "degrees", "by", "a", "b", "c", "x",
];

/// Whether a word or an option of this name may be this text.
fn is_right(alloc: Global, name: &str, text: &str) -> Result<bool, Memory>
    ensures { IfOk result (λ right. right ≡ is_right name.now text.now) }
{
    match name {
        "N" => Ok(seed_of(text).is_some()),
        "S" => Ok(number_up_to(MAX_S, text).is_some()),
        "T" => Ok(number_up_to(MAX_T, text).is_some()),
        "W" => Ok(product_of(alloc, text)?.is_some()),
        "OP" => Ok(matches!(text, "sum" | "tensor" | "dual" | "shift")),
        "workers" => Ok(positive_up_to(MAX_WORKERS, text).is_some()),
        "degrees" => Ok(shift_of(text).is_some()),
        _ => Ok(class_of(alloc, text)?.is_some()),
    }
}

/// What a word or an option of this name has to be.
fn wanted(name: &str) -> &'static str
    ensures { result.now ≡ wanted name.now }
{
    match name {
        "N" => "a number from 0 to 4294967295",
        "S" => "a number from 0 to 127",
        "T" => "a number from 0 to 255",
        "W" => "at most 16 numbers above 0, as 2,1, of sum at most 127",
        "OP" => "sum, tensor, dual or shift",
        "workers" => "a number from 1 to 64",
        "degrees" => "a number from -256 to 256",
        _ => "a class s,t,i, as 1,2,0",
    }
}

/// What stands in front of the name of an option.
fn mark(name: &str) -> &'static str
    ensures { result.now ≡ mark name.now }
{
    match name {
        "N" | "S" | "T" | "W" | "OP" => "",
        _ => "--",
    }
}

/// The line on a word or an option that has to be something else.
fn value_line(alloc: Global, name: &str, text: &str) -> Result<Vec<u8>, Memory>
    ensures { IfOk result (λ line. line.items ≡ value_line name.now text.now) }
{
    let (mark, text, wanted) = (mark(name), shown(text), wanted(name));
    let line = format!(in alloc; "ext: {mark}{name} is {text}, and has to be {wanted}\n")?;
    Ok(line.into_bytes())
}

/// The line on the first of the texts of a word or of an option that has to be something else.
fn wrong_value(alloc: Global, name: &str, texts: &[&str]) -> Result<Option<Vec<u8>>, Memory>
    ensures { IfOk result (λ line. option_map (λ l. l.items) line ≡ wrong_value name.now (texts_of texts.now)) }
{
    for text in texts {
        if !is_right(alloc, name, text)? {
            return Ok(Some(value_line(alloc, name, text)?));
        }
    }
    Ok(None)
}

/// The line on the first word or option of these names that a command's matches have, and that has to be something else.
fn first_wrong(
    alloc: Global,
    names: &[&str],
    matches: &ArgMatches,
) -> Result<Option<Vec<u8>>, Memory>
    ensures { IfOk result (λ line. option_map (λ l. l.items) line
        ≡ first_wrong (texts_of names.now) (given_in matches.now)) }
{
    for name in names {
        let line = wrong_value(alloc, name, words_in(matches, name))?;
        if line.is_some() {
            return Ok(line);
        }
    }
    Ok(None)
}

/// Which words the command of this name has.
fn form_of(name: &str) -> Option<&'static str>
    ensures { option_map (λ form. form.now) result ≡ form_of name.now }
{
    match name {
        "sphere" => Some(
            "sphere S T [--workers=W] [--save] [--live], or sphere S STEM --stems [--workers=W] with S + STEM at most 255",
        ),
        "resolve" => Some(
            "resolve S T [--workers=W] [--save] [--live], or resolve S STEM --stems [--workers=W] with S + STEM at most 255",
        ),
        "dump" => Some(
            "dump S T [--workers=W] [--save], or dump S STEM --stems [--workers=W] with S + STEM at most 255",
        ),
        "products" => Some(
            "products S T --by=s,t,i [--by=s,t,i ..] [--workers=W] [--save], or products S STEM --by=s,t,i [--by=s,t,i ..] --stems [--workers=W] with S + STEM at most 255",
        ),
        "massey" => Some("massey S T --a=s,t,i --b=s,t,i --c=s,t,i [--workers=W] [--save]"),
        "product" => Some("product --a=s,t,i --x=s,t,i [--workers=W]"),
        "bracket" => Some("bracket --a=s,t,i --b=s,t,i --c=s,t,i [--workers=W]"),
        "check" => Some("check"),
        "build" => Some("build sum, build tensor, build dual or build shift --degrees=N"),
        "sample" => Some(
            "sample N S T [--workers=W] [--save], or sample N S STEM --stems [--workers=W] with S + STEM at most 255",
        ),
        "sq" => Some("sq W"),
        "migrate" => Some("migrate"),
        "verify" => Some("verify S T"),
        "table" => Some(
            "table S T [--by=s,t,i ..] [--workers=W], or table S STEM --stems [--by=s,t,i ..] [--workers=W] with S + STEM at most 255",
        ),
        _ => None,
    }
}

/// The line on the first word or option that has to be something else, where the words are read as those of their command.
fn wrong_among(alloc: Global, words: &[&str]) -> Result<Option<Vec<u8>>, Memory>
    ensures { IfOk result (λ line. option_map (λ l. l.items) line
        ≡ option_and_then (first_wrong value_names) (given_of (texts_of words.now))) }
{
    let Some(matches) = read(alloc, words)? else {
        return Ok(None);
    };
    match matches.subcommand() {
        Some((_, inner)) => first_wrong(alloc, &VALUE_NAMES, inner),
        None => Ok(None),
    }
}

/// The line that shows the form of a command.
fn form_line(alloc: Global, form: &str) -> Result<Vec<u8>, Memory>
    ensures { IfOk result (λ line. line.items ≡ form_line form.now) }
{
    let line = format!(in alloc; "ext: the form is {form}\n")?;
    Ok(line.into_bytes())
}

/// What is wrong with the words of a command that has this form.
fn wrong_with(alloc: Global, form: &str, words: &[&str]) -> Result<Vec<u8>, Memory>
    ensures { IfOk result (λ line. line.items ≡ wrong_with form.now (given_of (texts_of words.now))) }
{
    match wrong_among(alloc, words)? {
        Some(line) => Ok(line),
        None => form_line(alloc, form),
    }
}

/// The line on a word that is no command.
fn unknown_line(alloc: Global, name: &str) -> Result<Vec<u8>, Memory>
    ensures { IfOk result (λ line. line.items ≡ unknown_line name.now) }
{
    let (name, commands) = (shown(name), COMMANDS);
    let line = format!(in alloc; "ext: {name} is no command; the commands are {commands}\n")?;
    Ok(line.into_bytes())
}

/// The line on a command that is not there.
fn no_command_line(alloc: Global) -> Result<Vec<u8>, Memory>
    ensures { IfOk result (λ line. line.items ≡ no_command_line) }
{
    let commands = COMMANDS;
    let line = format!(in alloc; "ext: no command; the commands are {commands}\n")?;
    Ok(line.into_bytes())
}

/// What is wrong with words of which the first is `name`.
fn wrong_under(alloc: Global, name: &str, words: &[&str]) -> Result<Vec<u8>, Memory>
    ensures { IfOk result (λ line. line.items ≡ wrong_under name.now (given_of (texts_of words.now))) }
{
    match form_of(name) {
        Some(form) => wrong_with(alloc, form, words),
        None => unknown_line(alloc, name),
    }
}

/// What is wrong with words that give no command.
fn wrong_of(alloc: Global, words: &[&str]) -> Result<Vec<u8>, Memory>
    ensures { IfOk result (λ line. line.items ≡ wrong_of (texts_of words.now)) }
{
    match words {
        [] => no_command_line(alloc),
        [name, ..] => wrong_under(alloc, name, words),
    }
}

/// The line that says what is wrong with words that are outside the grammar, none for words that give a command. What has no short line is
/// answered by the form of the command.
///
/// # Errors
/// `Memory` if allocation fails.
pub fn remark(alloc: Global, words: &[&str]) -> Result<Option<Vec<u8>>, Memory>
    ensures line { IfOk result (λ line. option_map (λ l. l.items) line ≡ remark_of (texts_of words.now)) }
{
    match command_of(alloc, words)? {
        Some(_) => Ok(None),
        None => Ok(Some(wrong_of(alloc, words)?)),
    }
}

/// A class as a line shows it.
fn class_text(alloc: Global, class: Class) -> Result<String, Memory>
    ensures { IfOk result (λ text. string_bytes text ≡ class_text class) }
{
    let Class { s, t, i } = class;
    Ok(format!(in alloc; "({s},{t},{i})")?)
}

/// The line that a class, which has this text, lies past the range.
fn past_with(alloc: Global, name: &str, class: &str, range: Range) -> Result<Vec<u8>, Memory>
    ensures { IfOk result (λ line. line.items ≡ past_with name.now class.now range) }
{
    let (row, degree) = (range.s, range.t);
    let line = format!(in alloc;
        "ext: {name} {class} is past the range, which ends in row {row} and in degree {degree} above the bottom\n"
    )?;
    Ok(line.into_bytes())
}

/// The line that a class lies past the range.
fn past_text(alloc: Global, name: &str, range: Range, class: Class) -> Result<Vec<u8>, Memory>
    ensures { IfOk result (λ line. line.items ≡ past_with name.now (class_text class) range) }
{
    let class = class_text(alloc, class)?;
    past_with(alloc, name, class.as_str(), range)
}

/// The line that a class lies past the range, if it does.
fn past_line(
    alloc: Global,
    is_past: bool,
    name: &str,
    range: Range,
    class: Class,
) -> Result<Option<Vec<u8>>, Memory>
    ensures { IfOk result (λ line. option_map (λ l. l.items) line ≡ past_line is_past name.now range class) }
{
    if is_past {
        Ok(Some(past_text(alloc, name, range, class)?))
    } else {
        Ok(None)
    }
}

/// The line that a class of the sphere, whose degrees are counted from 0, lies past the range, if it does.
fn sphere_line(
    alloc: Global,
    name: &str,
    range: Range,
    class: Class,
) -> Result<Option<Vec<u8>>, Memory>
    ensures { IfOk result (λ line. option_map (λ l. l.items) line ≡ sphere_line name.now range class) }
{
    let is_past = u32::from(range.s) < class.s || i32::from(range.t) < class.t;
    past_line(alloc, is_past, name, range, class)
}

/// The line that a class of a module lies past the range, if its row says so. Where its degrees begin words do not say.
fn module_line(
    alloc: Global,
    name: &str,
    range: Range,
    class: Class,
) -> Result<Option<Vec<u8>>, Memory>
    ensures { IfOk result (λ line. option_map (λ l. l.items) line ≡ module_line name.now range class) }
{
    past_line(alloc, u32::from(range.s) < class.s, name, range, class)
}

/// The line on the first of the classes of the sphere that lies past the range.
fn products_line(alloc: Global, range: Range, by: &[Class]) -> Result<Option<Vec<u8>>, Memory>
    ensures { IfOk result (λ line. option_map (λ l. l.items) line ≡ products_line range by.now) }
{
    for class in by {
        let line = sphere_line(alloc, "by", range, *class)?;
        if line.is_some() {
            return Ok(line);
        }
    }
    Ok(None)
}

/// The line on the first class of a bracket that lies past the range.
fn bracket_line(
    alloc: Global,
    range: Range,
    a: Class,
    b: Class,
    c: Class,
) -> Result<Option<Vec<u8>>, Memory>
    ensures { IfOk result (λ line. option_map (λ l. l.items) line ≡ bracket_line range a b c) }
{
    if let Some(line) = sphere_line(alloc, "a", range, a)? {
        return Ok(Some(line));
    }
    if let Some(line) = sphere_line(alloc, "b", range, b)? {
        return Ok(Some(line));
    }
    module_line(alloc, "c", range, c)
}

/// The line on the first class of a command that lies past the range.
fn class_line(alloc: Global, command: &Command) -> Result<Option<Vec<u8>>, Memory>
    ensures { IfOk result (λ line. option_map (λ l. l.items) line ≡ class_line command.now) }
{
    match command {
        Command::Products { common, by } => products_line(alloc, common.range, by.as_slice()),
        Command::Massey { common, a, b, c } => bracket_line(alloc, common.range, *a, *b, *c),
        Command::Table { common, by } => products_line(alloc, common.range, by.as_slice()),
        _ => Ok(None),
    }
}

/// The line that says which class of the words lies past the range, none where that is not known from the words.
///
/// # Errors
/// `Memory` if allocation fails.
pub fn remark_on_classes(alloc: Global, words: &[&str]) -> Result<Option<Vec<u8>>, Memory>
    ensures line { IfOk result (λ line. option_map (λ l. l.items) line ≡ remark_on_classes (texts_of words.now)) }
{
    match command_of(alloc, words)? {
        Some(command) => class_line(alloc, &command),
        None => Ok(None),
    }
}
