//! The command grammar.
ghost use Rattle.std.specs.Prelude.{◌≡◌, ◌≢◌, ◌≤◌, ◌⊎◌, Some, None, [], Err, IfOk, IfSome, OnSome, IfNone, false, codes, option_map, option_and_then, unwrap_or};
ghost use Rattle.clap.specs.Words.{app_of, fault_of, found_of, rows_of, rule_of, subcommand_of, subcommand_rows_of};
ghost use Rattle.std.specs.List.{All, list_any};
ghost use Rattle.std.specs.Str.{bytes_eq};
ghost use Rattle.clap.specs.declared.builder.command.Command.TheViews.{out-Command};
ghost use Rattle.ext_words.specs.Inside.CommandLine.{is_stray, option_named, flag_named, command_with, no_command, command_line, given_in, given_below, command_named, command_in};
ghost use Rattle.ext_words.specs.declared.command.WordsFault as WordsFault;
ghost use Rattle.ext_words.specs.Words.{texts_of, has_live, text_given, is_given, number_given, workers_of, shape_of, range_through, range_of, common_of, class_given, classes_given, products_of, massey_of, one_product_of, bracket_of, built_by, build_of, seed_of, sample_of, product_given, table_of, given_of, command_of, IsRangeWithin, IsRangeOf, IsWithin, IsShort, AreWorkers, IsWithinShift, IsWithinDegree, IsWithinLimits};

use crate::command::{Build, Classes, Command, Common, MAX_WORKERS, WordsFault};
use crate::numbers::{
    class_of, classes_of, number_up_to, positive_up_to, product_of, seed_of, shift_of,
};
use bidegree::{Class, MAX_S, MAX_T, Range, Shape};
use clap::error::ErrorKind;
use clap::{Arg, ArgAction, ArgMatches};
use memory::Memory;
use monomial::Mono;
use std::alloc::{AllocError, Global};

/// An option that has a value, or one for each of its uses, if it `repeats`. No option and no word is marked as required: where one
/// is missing, what reads it finds none.
fn option_named<'a>(alloc: Global, repeats: bool, name: &'a str) -> Arg<'a>
    ensures rule { rule_of result ≡ option_named repeats name.now }
    ensures local { result.global ≡ false }
{
    let option = Arg::new(alloc, name).long(name);
    if repeats {
        option.action(ArgAction::Append)
    } else {
        option
    }
}

/// Whether a name is among these.
fn is_in(names: &[&str], name: &str) -> bool
    ensures { result ≡ list_any (λ other. bytes_eq other.now name.now) names.now }
{
    names.iter().any(|other| *other == name)
}

/// An option that has no value. For `clap` it is an option with 0 values, and not a flag that is set: it leaves no match
/// where it is not given, and its matches are those of its uses.
fn flag_named<'a>(alloc: Global, name: &'a str) -> Arg<'a>
    ensures rule { rule_of result ≡ flag_named name.now }
    ensures local { result.global ≡ false }
{
    Arg::new(alloc, name)
        .long(name)
        .action(ArgAction::Set)
        .num_args(0)
}

/// A command with these words, options and flags. Some of the options may be given more than once.
fn command_with<'a>(
    alloc: Global,
    name: &'a str,
    words: &[&'a str],
    options: &[&'a str],
    repeated: &[&str],
    flags: &[&'a str],
) -> Result<clap::Command<'a>, AllocError>
    ensures app { IfOk result (λ made. app_of made ≡ command_with name.now (texts_of words.now)
        (record { valued = texts_of options.now; repeated = texts_of repeated.now; flags = texts_of flags.now })) }
    ensures local { IfOk result (λ made. (out-Command made).has_globals ≡ false) }
{
    let mut command = clap::Command::new(alloc, name);
    for word in words {
        command = command.arg(Arg::new(alloc, word))?;
    }
    for option in options {
        command = command.arg(option_named(alloc, is_in(repeated, option), option))?;
    }
    for flag in flags {
        command = command.arg(flag_named(alloc, flag))?;
    }
    Ok(command)
}

/// The command line without commands, and without `clap`'s help.
fn no_command<'a>(alloc: Global) -> clap::Command<'a>
    ensures { app_of result ≡ no_command }
{
    clap::Command::new(alloc, "ext")
        .no_binary_name(true)
        .disable_help_flag(true)
        .disable_help_subcommand(true)
        .subcommand_required(true)
}

/// All commands: the name of each, its words, its options and its flags.
fn command_line<'a>(alloc: Global) -> Result<clap::Command<'a>, AllocError>
    ensures { IfOk result (λ line. app_of line ≡ command_line) }
{
    no_command(alloc)
        .subcommand(command_with(
            alloc,
            "sphere",
            &["S", "T"],
            &["workers"],
            &[],
            &["save", "live", "stems"],
        )?)?
        .subcommand(command_with(
            alloc,
            "resolve",
            &["S", "T"],
            &["workers"],
            &[],
            &["save", "live", "stems"],
        )?)?
        .subcommand(command_with(
            alloc,
            "dump",
            &["S", "T"],
            &["workers"],
            &[],
            &["save", "stems"],
        )?)?
        .subcommand(command_with(
            alloc,
            "products",
            &["S", "T"],
            &["workers", "by"],
            &["by"],
            &["save", "stems"],
        )?)?
        .subcommand(command_with(
            alloc,
            "massey",
            &["S", "T"],
            &["workers", "a", "b", "c"],
            &[],
            &["save"],
        )?)?
        .subcommand(command_with(alloc, "product", &[], &["workers", "a", "x"], &[], &[])?)?
        .subcommand(command_with(alloc, "bracket", &[], &["workers", "a", "b", "c"], &[], &[])?)?
        .subcommand(command_with(alloc, "check", &[], &[], &[], &[])?)?
        .subcommand(command_with(alloc, "build", &["OP"], &["degrees"], &[], &[])?)?
        .subcommand(command_with(
            alloc,
            "sample",
            &["N", "S", "T"],
            &["workers"],
            &[],
            &["save", "stems"],
        )?)?
        .subcommand(command_with(alloc, "sq", &["W"], &[], &[], &[])?)?
        .subcommand(command_with(alloc, "migrate", &[], &[], &[], &[])?)?
        .subcommand(command_with(alloc, "verify", &["S", "T"], &[], &[], &[])?)?
        .subcommand(command_with(
            alloc,
            "table",
            &["S", "T"],
            &["workers", "by"],
            &["by"],
            &["stems"],
        )?)
}

/// The matches of the words, none where `clap` refuses them.
fn matches_of<'a>(alloc: Global, words: &'a [&'a str]) -> Result<Option<ArgMatches<'a>>, Memory>
    ensures taken { IfOk result (λ found. OnSome found (fault_of command_line (texts_of words.now) ≡ [])) }
    ensures rows { IfOk result (λ found. IfSome found
        (λ matches. subcommand_rows_of matches ≡ subcommand_of command_line (texts_of words.now))) }
    ensures refused { IfOk result (λ found. IfNone found (fault_of command_line (texts_of words.now) ≢ [])) }
{
    match command_line(alloc)?.try_get_matches_from(words) {
        Ok(matches) => Ok(Some(matches)),
        Err(e) if e.kind() == ErrorKind::OutOfMemory => Err(Memory),
        Err(_) => Ok(None),
    }
}

/// The word, or the value of the option, that a command's matches have of this name.
pub(crate) fn word_in<'m>(matches: &'m ArgMatches, id: &str) -> Option<&'m str>
    ensures { option_map (λ word. word.now) result ≡ text_given id.now (given_in matches.now) }
{
    matches.get_str(id)
}

/// The values that a command's matches have of the option of this name, or the word, in their order.
pub(crate) fn words_in<'m>(matches: &'m ArgMatches, id: &str) -> &'m [&'m str]
    ensures { texts_of result.now ≡ unwrap_or (given_in matches.now id.now) [] }
{
    matches.get_strs(id).unwrap_or(&[])
}

/// The number of a command's word, at most `limit`.
fn number_in(matches: &ArgMatches, id: &str, limit: u16) -> Option<u16>
    ensures number { result ≡ number_given id.now limit (given_in matches.now) }
    ensures within { IfSome result (λ n. n ≤ limit) }
{
    number_up_to(limit, word_in(matches, id)?)
}

/// The number of workers of a command's matches, 1 where the option is not given.
fn workers_in(matches: &ArgMatches) -> Option<u32>
    ensures workers { result ≡ workers_of (text_given (codes "workers") (given_in matches.now)) }
    ensures within { IfSome result AreWorkers }
{
    match word_in(matches, "workers") {
        Some(word) => Some(u32::from(positive_up_to(MAX_WORKERS, word)?)),
        None => Some(1),
    }
}

/// Whether a command's matches have the option of this name.
fn has_flag(matches: &ArgMatches, name: &str) -> bool
    ensures { result ≡ is_given name.now (given_in matches.now) }
{
    matches.contains_id(name)
}

/// Which squares of a range a command's matches mean.
fn shape_in(matches: &ArgMatches) -> Shape
    ensures { result ≡ shape_of (given_in matches.now) }
{
    if has_flag(matches, "stems") {
        Shape::Stems
    } else {
        Shape::Rectangle
    }
}

/// The range through row `s` whose second number is its last degree or its last stem, none where that is too far.
fn range_through(shape: Shape, s: u16, t: u16) -> Option<Range>
    requires row { s ≤ MAX_S }
    requires degree { t ≤ MAX_T }
    ensures range { result ≡ range_through shape s t }
    ensures within { IfSome result IsRangeWithin }
    ensures shaped { IfSome result (IsRangeOf shape) }
{
    match shape {
        Shape::Rectangle => Some(Range { s, t }),
        Shape::Stems if s + t <= MAX_T => Some(Range { s, t: s + t }),
        Shape::Stems => None,
    }
}

/// The range of the words S and T of a command's matches.
fn range_in(shape: Shape, matches: &ArgMatches) -> Option<Range>
    ensures range { result ≡ range_of shape (given_in matches.now) }
    ensures within { IfSome result IsRangeWithin }
    ensures shaped { IfSome result (IsRangeOf shape) }
{
    let s = number_in(matches, "S", MAX_S)?;
    let t = number_in(matches, "T", MAX_T)?;
    range_through(shape, s, t)
}

/// The numbers S and T of a command's matches, and its options.
fn common_in(matches: &ArgMatches) -> Option<Common>
    ensures common { result ≡ common_of (given_in matches.now) }
    ensures within { IfSome result IsWithin }
{
    let shape = shape_in(matches);
    let save = has_flag(matches, "save");
    let live = has_flag(matches, "live");
    if shape == Shape::Stems && (save || live) {
        return None;
    }
    let range = range_in(shape, matches)?;
    let workers = workers_in(matches)?;
    Some(Common {
        range,
        shape,
        workers,
        save,
        live,
    })
}

/// The class that an option of a command's matches has.
fn class_in(alloc: Global, matches: &ArgMatches, name: &str) -> Result<Option<Class>, Memory>
    ensures class { IfOk result (λ class. class ≡ class_given name.now (given_in matches.now)) }
    ensures within { IfOk result (λ class. IfSome class IsShort) }
{
    match word_in(matches, name) {
        Some(word) => class_of(alloc, word),
        None => Ok(None),
    }
}

/// The classes that an option of a command's matches has.
fn classes_in(alloc: Global, matches: &ArgMatches, name: &str) -> Result<Option<Classes>, Memory>
    ensures classes { IfOk result (λ classes. classes ≡ classes_given name.now (given_in matches.now)) }
    ensures within { IfOk result (λ classes. IfSome classes (λ list. All IsShort list)) }
{
    if has_flag(matches, name) {
        classes_of(alloc, words_in(matches, name))
    } else {
        Ok(None)
    }
}

/// The command of products that a command's matches ask for.
fn products_in(alloc: Global, matches: &ArgMatches) -> Result<Option<Command>, Memory>
    ensures command { IfOk result (λ command. command ≡ products_of (given_in matches.now)) }
    ensures within { IfOk result (λ command. IfSome command IsWithinLimits) }
{
    let Some(common) = common_in(matches) else {
        return Ok(None);
    };
    let Some(by) = classes_in(alloc, matches, "by")? else {
        return Ok(None);
    };
    Ok(Some(Command::Products { common, by }))
}

/// The command of a bracket that a command's matches ask for.
fn massey_in(alloc: Global, matches: &ArgMatches) -> Result<Option<Command>, Memory>
    ensures command { IfOk result (λ command. command ≡ massey_of (given_in matches.now)) }
    ensures within { IfOk result (λ command. IfSome command IsWithinLimits) }
{
    let Some(common) = common_in(matches) else {
        return Ok(None);
    };
    let Some(a) = class_in(alloc, matches, "a")? else {
        return Ok(None);
    };
    let Some(b) = class_in(alloc, matches, "b")? else {
        return Ok(None);
    };
    let Some(c) = class_in(alloc, matches, "c")? else {
        return Ok(None);
    };
    Ok(Some(Command::Massey { common, a, b, c }))
}

/// The command of one product that a command's matches ask for.
fn one_product_in(alloc: Global, matches: &ArgMatches) -> Result<Option<Command>, Memory>
    ensures command { IfOk result (λ command. command ≡ one_product_of (given_in matches.now)) }
    ensures within { IfOk result (λ command. IfSome command IsWithinLimits) }
{
    let Some(workers) = workers_in(matches) else {
        return Ok(None);
    };
    let Some(a) = class_in(alloc, matches, "a")? else {
        return Ok(None);
    };
    let Some(x) = class_in(alloc, matches, "x")? else {
        return Ok(None);
    };
    Ok(Some(Command::Product { workers, a, x }))
}

/// The command of a bracket without a range that a command's matches ask for.
fn bracket_in(alloc: Global, matches: &ArgMatches) -> Result<Option<Command>, Memory>
    ensures command { IfOk result (λ command. command ≡ bracket_of (given_in matches.now)) }
    ensures within { IfOk result (λ command. IfSome command IsWithinLimits) }
{
    let Some(workers) = workers_in(matches) else {
        return Ok(None);
    };
    let Some(a) = class_in(alloc, matches, "a")? else {
        return Ok(None);
    };
    let Some(b) = class_in(alloc, matches, "b")? else {
        return Ok(None);
    };
    let Some(c) = class_in(alloc, matches, "c")? else {
        return Ok(None);
    };
    Ok(Some(Command::Bracket { workers, a, b, c }))
}

/// What is built by the word OP and by the value of `--degrees`, which stands with `shift`, and there alone.
fn built_by(word: &str, degrees: Option<&str>) -> Option<Build>
    ensures build { result ≡ built_by word.now (option_map (λ text. text.now) degrees.entry) }
    ensures within { IfSome result IsWithinShift }
{
    match degrees {
        None => match word {
            "sum" => Some(Build::Sum),
            "tensor" => Some(Build::Tensor),
            "dual" => Some(Build::Dual),
            _ => None,
        },
        Some(degrees) if word == "shift" => Some(Build::Shift(shift_of(degrees)?)),
        Some(_) => None,
    }
}

/// What is built by the word OP of a command's matches.
fn build_in(matches: &ArgMatches) -> Option<Build>
    ensures build { result ≡ build_of (given_in matches.now) }
    ensures within { IfSome result IsWithinShift }
{
    built_by(word_in(matches, "OP")?, word_in(matches, "degrees"))
}

/// The number N of a command's matches.
fn seed_in(matches: &ArgMatches) -> Option<u32>
    ensures { result ≡ option_and_then seed_of (text_given (codes "N") (given_in matches.now)) }
{
    seed_of(word_in(matches, "N")?)
}

/// The sample that a command's matches ask for.
fn sample_in(matches: &ArgMatches) -> Option<Command>
    ensures command { result ≡ sample_of (given_in matches.now) }
    ensures within { IfSome result IsWithinLimits }
{
    let n = seed_in(matches)?;
    let common = common_in(matches)?;
    Some(Command::Sample { n, common })
}

/// The product W of a command's matches.
fn product_in(alloc: Global, matches: &ArgMatches) -> Result<Option<Mono>, Memory>
    ensures product { IfOk result (λ product. product ≡ product_given (given_in matches.now)) }
    ensures within { IfOk result (λ product. IfSome product IsWithinDegree) }
{
    match word_in(matches, "W") {
        Some(word) => product_of(alloc, word),
        None => Ok(None),
    }
}

/// The table that a command's matches ask for.
fn table_in(alloc: Global, matches: &ArgMatches) -> Result<Option<Command>, Memory>
    ensures command { IfOk result (λ command. command ≡ table_of (given_in matches.now)) }
    ensures within { IfOk result (λ command. IfSome command IsWithinLimits) }
{
    let Some(common) = common_in(matches) else {
        return Ok(None);
    };
    let Some(by) = classes_of(alloc, words_in(matches, "by"))? else {
        return Ok(None);
    };
    Ok(Some(Command::Table { common, by }))
}

/// The command that has this name, with its matches.
fn command_named(alloc: Global, name: &str, matches: &ArgMatches) -> Result<Option<Command>, Memory>
    ensures command { IfOk result (λ command. command ≡ command_named name.now (rows_of (found_of matches.now))) }
    ensures within { IfOk result (λ command. IfSome command IsWithinLimits) }
{
    match name {
        "sphere" => Ok(common_in(matches).map(Command::Sphere)),
        "resolve" => Ok(common_in(matches).map(Command::Resolve)),
        "dump" => Ok(common_in(matches).map(Command::Dump)),
        "products" => products_in(alloc, matches),
        "massey" => massey_in(alloc, matches),
        "product" => one_product_in(alloc, matches),
        "bracket" => bracket_in(alloc, matches),
        "check" => Ok(Some(Command::Check)),
        "build" => Ok(build_in(matches).map(Command::Build)),
        "sample" => Ok(sample_in(matches)),
        "sq" => Ok(product_in(alloc, matches)?.map(Command::Sq)),
        "migrate" => Ok(Some(Command::Migrate)),
        "verify" => Ok(range_in(Shape::Rectangle, matches).map(Command::Verify)),
        "table" => table_in(alloc, matches),
        _ => Ok(None),
    }
}

/// The command that matches name.
fn command_in(alloc: Global, matches: &ArgMatches) -> Result<Option<Command>, Memory>
    ensures command { IfOk result (λ command. command ≡ command_in (subcommand_rows_of matches.now)) }
    ensures within { IfOk result (λ command. IfSome command IsWithinLimits) }
{
    match matches.subcommand() {
        Some((name, inner)) => command_named(alloc, name, inner),
        None => Ok(None),
    }
}

/// Whether a word begins with a hyphen and is no option. `clap` takes what follows `--` as it is, and some words behind one hyphen
/// too; the grammar has none of them.
fn is_stray(word: &str) -> bool
    ensures { result ≡ is_stray word.now }
{
    match word.as_bytes() {
        [b'-', b'-', _, ..] => false,
        [b'-', ..] => true,
        _ => false,
    }
}

/// Whether a word among these is stray.
fn has_stray(words: &[&str]) -> bool
    ensures { result ≡ list_any (λ word. is_stray word.now) words.now }
{
    words.iter().any(|word| is_stray(word))
}

/// The matches of the words, none where one of them is stray, or `clap` refuses them.
pub(crate) fn read<'a>(
    alloc: Global,
    words: &'a [&'a str],
) -> Result<Option<ArgMatches<'a>>, Memory>
    ensures given { IfOk result (λ found. option_and_then (λ matches. given_below (subcommand_rows_of matches)) found
        ≡ given_of (texts_of words.now)) }
    ensures command { IfOk result (λ found. option_and_then (λ matches. command_in (subcommand_rows_of matches)) found
        ≡ command_of (texts_of words.now)) }
{
    if has_stray(words) {
        return Ok(None);
    }
    matches_of(alloc, words)
}

/// The command that the words give, none where they are outside the grammar.
pub(crate) fn command_of(alloc: Global, words: &[&str]) -> Result<Option<Command>, Memory>
    ensures command { IfOk result (λ command. command ≡ command_of (texts_of words.now)) }
    ensures within { IfOk result (λ command. IfSome command IsWithinLimits) }
{
    match read(alloc, words)? {
        Some(matches) => command_in(alloc, &matches),
        None => Ok(None),
    }
}

/// Whether a word is `--live`.
fn is_live(word: &str) -> bool
    ensures { result ≡ bytes_eq word.now (codes "--live") }
{
    word == "--live"
}

/// Whether `--live` is among the words. Where it is not, they ask for no reports.
pub fn has_live(words: &[&str]) -> bool
    ensures { result ≡ has_live words.now }
{
    words.iter().any(|word| is_live(word))
}

/// The command that the words after a program's name give.
///
/// # Errors
/// `Words` where they are outside the grammar, and `Memory` if allocation fails while they are read.
pub fn parse(alloc: Global, words: &[&str]) -> Result<Command, WordsFault>
    ensures ok { IfOk result (λ command. command_of (texts_of words.now) ≡ Some command) }
    ensures within { IfOk result IsWithinLimits }
    ensures refused { result ≡ Err WordsFault.Words → command_of (texts_of words.now) ≡ None }
    ensures refuses { command_of (texts_of words.now) ≡ None →
        (result ≡ Err WordsFault.Words) ⊎ (result ≡ Err WordsFault.Memory) }
{
    command_of(alloc, words)?.ok_or(WordsFault::Words)
}
