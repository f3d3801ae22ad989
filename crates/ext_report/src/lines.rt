//! The line on standard error that tells a failure.
ghost use Rattle.std.specs.Prelude.{◌≡◌, ◌≤◌, ◌++◌, OnOk, OnErr};
ghost use Rattle.edge.specs.Faults.{HasRisen};
ghost use Rattle.edge.specs.Sink.{HasPrefixMore, with_more};
ghost use Rattle.finite_module.specs.Text.{name_at, newline};
ghost use Rattle.ext_report.specs.Parts.{part_text, parts_text};
ghost use Rattle.ext_report.specs.Lines.{what_text, place_text, action_line, malformed_line, fault_line, open_line, refusal_line, record_line, place_line, certificate_line, built_line, line_of, named_text, pair_text, target_text, class_line};

use crate::failure::Failure;
use crate::writing::Part::{self, Class, Digest, Nothing, Number, Place, Square, Sum, Text};
use crate::writing::write_parts;
use cert_check::CertFault;
use edge::{Failed, Sink, write_all};
use ext_products::{Named, Pair, Refusal, Target};
use module_check::CheckFault;
use module_json::{Malformed, Place as FilePlace, What, Why};
use module_spec::Spec;
use save_file::ResumeFault;
use save_journal::OpenFault;

const MEMORY_LINE: &[u8] = b"ext: out of memory\n";

const SAVING_LINE: &[u8] = b"ext: the save file failed\n";

/// The parts of a line.
type Line<'a> = [Part<'a>; 7];

/// A line of one text.
fn plain<'a>(text: &'a [u8]) -> Line<'a>
    ensures { parts_text result ≡ text.now }
{
    [
        Text(text),
        Nothing,
        Nothing,
        Nothing,
        Nothing,
        Nothing,
        Nothing,
    ]
}

/// A line of three parts.
fn padded<'a>(first: Part<'a>, second: Part<'a>, third: Part<'a>) -> Line<'a>
    ensures { parts_text result ≡ part_text first.entry ++ (part_text second.entry ++ part_text third.entry) }
{
    [first, second, third, Nothing, Nothing, Nothing, Nothing]
}

fn what_text(what: What) -> &'static [u8]
    ensures { result.now ≡ what_text what }
{
    match what {
        What::Bytes => b"bytes",
        What::Gens => b"generators",
        What::Degree => b"degree",
        What::Span => b"span",
        What::Actions => b"actions",
    }
}

fn place_text(at: FilePlace) -> &'static [u8]
    ensures { result.now ≡ place_text at }
{
    match at {
        FilePlace::Whole => b"whole",
        FilePlace::Kind => b"type",
        FilePlace::Cofiber => b"cofiber",
        FilePlace::Shift => b"shift",
        FilePlace::Profile => b"profile",
        FilePlace::AdemActions => b"adem_actions",
        FilePlace::MilnorActions => b"milnor_actions",
        FilePlace::Prime => b"p",
        FilePlace::Gens => b"gens",
        FilePlace::Actions => b"actions",
        FilePlace::Min => b"min",
        FilePlace::Max => b"max",
    }
}

/// The name of a generator, empty where there is none of that number.
fn name_at(spec: &Spec, generator: usize) -> &[u8]
    ensures { result.now ≡ name_at spec.now.generators generator }
{
    if generator < spec.count() {
        spec.name(generator).as_bytes()
    } else {
        b""
    }
}

/// What is wrong with action `index`.
fn action_line(index: usize, why: Why) -> Line<'static>
    ensures { parts_text result ≡ action_line index why }
{
    let start = Text(b"ext: module file: action ");
    let number = Number(index as u64);
    match why {
        Why::Syntax => padded(start, number, Text(b": syntax\n")),
        Why::SquareZero => padded(start, number, Text(b": square zero\n")),
        Why::Unknown => padded(start, number, Text(b": unknown name\n")),
        Why::WrongDegree => padded(start, number, Text(b": wrong degree\n")),
        Why::Repeated { first } => [
            start,
            number,
            Text(b": differs from action "),
            Number(first as u64),
            Text(b"\n"),
            Nothing,
            Nothing,
        ],
    }
}

/// A text, a part and the line's end.
fn ended<'a>(start: &'a [u8], part: Part<'a>) -> Line<'a>
    ensures { parts_text result ≡ start.now ++ (part_text part.entry ++ newline) }
{
    padded(Text(start), part, Text(b"\n"))
}

/// What is wrong with a module file.
fn malformed_line(malformed: Malformed) -> Line<'static>
    ensures { parts_text result ≡ malformed_line malformed }
{
    match malformed {
        Malformed::Limit { what } => ended(
            b"ext: module file: past the limit of ",
            Text(what_text(what)),
        ),
        Malformed::Json => plain(b"ext: module file: not JSON\n"),
        Malformed::Shape { at } => ended(
            b"ext: module file: wrong shape at ",
            Text(place_text(at)),
        ),
        Malformed::Kind => plain(b"ext: module file: unknown type\n"),
        Malformed::Prime { given } => ended(b"ext: module file: prime ", Number(given)),
        Malformed::Name { generator } => ended(
            b"ext: module file: name of generator ",
            Number(generator as u64),
        ),
        Malformed::Degree { generator } => ended(
            b"ext: module file: degree of generator ",
            Number(generator as u64),
        ),
        Malformed::Action { index, why } => action_line(index, why),
        Malformed::Bounds { .. } => plain(b"ext: module file: max below min\n"),
        Malformed::Parts { want, given } => [
            Text(b"ext: module file: "),
            Number(given as u64),
            Text(b" parts, wanted "),
            Number(want as u64),
            Text(b"\n"),
            Nothing,
            Nothing,
        ],
        Malformed::Memory => plain(MEMORY_LINE),
    }
}

/// Why a module file describes no module.
fn fault_line<'a>(spec: &'a Spec, fault: &'a CheckFault) -> Line<'a>
    ensures { parts_text result ≡ fault_line spec.now.generators fault.now }
{
    match fault {
        CheckFault::Listed { index } => padded(
            Text(b"ext: not a module: action "),
            Number(*index as u64),
            Text(b" differs from its derived value\n"),
        ),
        CheckFault::Relation { r, s, generator } => [
            Text(b"ext: not a module: "),
            Square(r),
            Text(b" "),
            Square(s),
            Text(b" on "),
            Text(name_at(spec, *generator)),
            Text(b"\n"),
        ],
        CheckFault::Memory => plain(MEMORY_LINE),
    }
}

/// The limit that what was to be built passes.
fn built_line(what: What) -> Line<'static>
    ensures { parts_text result ≡ built_line what }
{
    ended(
        b"ext: built module: past the limit of ",
        Text(what_text(what)),
    )
}

/// Why a save file was not opened.
fn open_line(fault: &OpenFault) -> Line<'_>
    ensures { parts_text result ≡ open_line fault.now }
{
    match fault {
        OpenFault::Failed => plain(SAVING_LINE),
        OpenFault::NotSave => plain(b"ext: save file: not a save file\n"),
        OpenFault::Other { kept, ours } => [
            Text(b"ext: save file: of another module, kept "),
            Digest(kept),
            Text(b", ours "),
            Digest(ours),
            Text(b"\n"),
            Nothing,
            Nothing,
        ],
        OpenFault::Damaged {
            number,
            kept,
            found,
            ..
        } => [
            Text(b"ext: save file: record "),
            Number(*number),
            Text(b" damaged, kept "),
            Digest(kept),
            Text(b", found "),
            Digest(found),
            Text(b"\n"),
        ],
        OpenFault::Short { place, .. } => ended(b"ext: save file: short at place ", Number(*place)),
        OpenFault::Memory => plain(MEMORY_LINE),
    }
}

/// Why a save file was not taken up.
fn refusal_line(fault: &ResumeFault) -> Line<'_>
    ensures { parts_text result ≡ refusal_line fault.now }
{
    match fault {
        ResumeFault::Open(fault) => open_line(fault),
        ResumeFault::Strange { number, .. } => padded(
            Text(b"ext: save file: record "),
            Number(*number),
            Text(b" strange\n"),
        ),
        ResumeFault::Memory => plain(MEMORY_LINE),
    }
}

/// Where a record of a save file begins.
fn record_line(number: u64, place: u64) -> Line<'static>
    ensures { parts_text result ≡ record_line number place }
{
    [
        Text(b"ext: save file: record "),
        Number(number),
        Text(b" begins at byte "),
        Number(place),
        Text(b"\n"),
        Nothing,
        Nothing,
    ]
}

/// Where the record begins for which a save file was not taken up, a line without a part where there is none.
fn place_line(fault: &ResumeFault) -> Line<'static>
    ensures { parts_text result ≡ place_line fault.now }
{
    match fault {
        ResumeFault::Open(OpenFault::Damaged { number, place, .. }) => record_line(*number, *place),
        ResumeFault::Open(OpenFault::Short { number, place }) => record_line(*number, *place),
        ResumeFault::Strange { number, place } => record_line(*number, *place),
        _ => plain(b""),
    }
}

/// Writes why a save file was not taken up, and where the record begins if that is for one. After an error some first bytes are
/// written.
fn write_refusal<E: Sink>(fault: &ResumeFault, err: &mut E) -> Result<(), Failed>
    ensures whole { OnOk result
        (E.written err.new ≡ with_more (E.written err.old) (refusal_line fault.now ++ place_line fault.now)) }
    ensures never_fall { E.faults err.old ≤ E.faults err.new }
    ensures cause { OnErr result (HasRisen (E.faults err.old) (E.faults err.new)) }
    ensures prefix { HasPrefixMore (refusal_line fault.now ++ place_line fault.now) (E.written err.old)
        (E.written err.new) }
{
    write_parts(err, &refusal_line(fault))?;
    write_parts(err, &place_line(fault))
}

/// Why a save file is no certificate.
fn certificate_line(fault: CertFault) -> Line<'static>
    ensures { parts_text result ≡ certificate_line fault }
{
    match fault {
        CertFault::Missing { s, t } => ended(
            b"ext: certificate: missing square ",
            Place(i32::from(s), t),
        ),
        CertFault::NoQuasi { s, t } => ended(
            b"ext: certificate: no quasi-inverse at ",
            Place(i32::from(s), t),
        ),
        CertFault::Inexact { s, t } => ended(
            b"ext: certificate: not exact at ",
            Place(i32::from(s), t),
        ),
        CertFault::NotMinimal { s, t } => ended(
            b"ext: certificate: not minimal at ",
            Place(i32::from(s), t),
        ),
    }
}

/// What a class is asked for as.
fn named_text(named: &Named) -> &[u8]
    ensures { result.now ≡ named_text named.now }
{
    match named {
        Named::By => b"by",
        Named::A => b"a",
        Named::B => b"b",
        Named::C => b"c",
        Named::X => b"x",
    }
}

/// A product of two of the classes of a bracket.
fn pair_text(pair: &Pair) -> &[u8]
    ensures { result.now ≡ pair_text pair.now }
{
    match pair {
        Pair::Ab => b"ab",
        Pair::Bc => b"bc",
    }
}

/// What has to be in the range.
fn target_text(target: &Target) -> &[u8]
    ensures { result.now ≡ target_text target.now }
{
    match target {
        Target::Product(pair) => pair_text(pair),
        Target::Bracket => b"value",
        Target::Ax => b"ax",
    }
}

/// Why there is nothing to tell of classes.
fn class_line(refusal: &Refusal) -> Line<'_>
    ensures { parts_text result ≡ class_line refusal.now }
{
    match refusal {
        Refusal::NoClass {
            named,
            class,
            count,
        } => [
            Text(b"ext: no class "),
            Text(named_text(named)),
            Text(b" "),
            Class(*class),
            Text(b", "),
            Number(*count as u64),
            Text(b" there\n"),
        ],
        Refusal::OutOfRange { target, s, t } => [
            Text(b"ext: out of range at "),
            Text(target_text(target)),
            Text(b" "),
            Place(*s, *t),
            Text(b"\n"),
            Nothing,
            Nothing,
        ],
        Refusal::Nonzero {
            pair,
            s,
            t,
            product,
        } => [
            Text(b"ext: product "),
            Text(pair_text(pair)),
            Text(b" is not zero: "),
            Sum(*s, *t, product),
            Text(b"\n"),
            Nothing,
            Nothing,
        ],
    }
}

/// Writes the line of a failure, and a second one where a save file is refused for a record. After an error some first bytes are
/// written.
fn write_line<E: Sink>(failure: &Failure, err: &mut E) -> Result<(), Failed>
    ensures whole { OnOk result (E.written err.new ≡ with_more (E.written err.old) (line_of failure.now)) }
    ensures never_fall { E.faults err.old ≤ E.faults err.new }
    ensures cause { OnErr result (HasRisen (E.faults err.old) (E.faults err.new)) }
    ensures prefix { HasPrefixMore (line_of failure.now) (E.written err.old) (E.written err.new) }
{
    match failure {
        Failure::Words => write_all(err, b"ext: words outside the command grammar\n"),
        Failure::Malformed(malformed) => write_parts(err, &malformed_line(*malformed)),
        Failure::NotModule(spec, fault) => write_parts(err, &fault_line(spec, fault)),
        Failure::PastLimit(what) => write_parts(err, &built_line(*what)),
        Failure::Reading => write_all(err, b"ext: reading the module failed\n"),
        Failure::Writing => write_all(err, b"ext: writing failed\n"),
        Failure::Saving => write_all(err, SAVING_LINE),
        Failure::SaveFile(fault) => write_refusal(fault, err),
        Failure::Certificate(fault) => write_parts(err, &certificate_line(*fault)),
        Failure::Classes(refusal) => write_parts(err, &class_line(refusal)),
        Failure::Memory => write_all(err, MEMORY_LINE),
    }
}

/// Writes the line of a failure to `err`, which takes no memory. If a save file is refused for a record, a second line tells where that
/// record begins. Where writing fails, some first bytes are written.
pub fn report<E: Sink>(failure: &Failure, err: &mut E)
    ensures never_fall { E.faults err.old ≤ E.faults err.new }
    ensures line { HasPrefixMore (line_of failure.now) (E.written err.old) (E.written err.new) }
    ensures whole_line { ¬ HasRisen (E.faults err.old) (E.faults err.new) →
        E.written err.new ≡ with_more (E.written err.old) (line_of failure.now) }
{
    // The failure stays what it is where its line cannot be written.
    let _ = write_line(failure, err);
}
