//! Texts written to a sink part by part, without memory.
ghost use Rattle.std.specs.Prelude.{◌≡◌, ◌≤◌, ◌++◌, map, decimal, OnOk, OnErr};
ghost use Rattle.std.specs.List.{join_with_byte};
ghost use Rattle.milnor_basis.specs.Text.{comma, sq_text};
ghost use Rattle.edge.specs.Faults.{HasRisen};
ghost use Rattle.hex.specs.Hex.{encode_lower};
ghost use Rattle.edge.specs.Sink.{HasPrefixMore, with_more};
ghost use Rattle.ext_chart.specs.Classes.{class_text, class_sum_text};
ghost use Rattle.ext_report.specs.Parts.{square_place, part_text, parts_text, separator, plus};
ghost use Rattle.std.specs.Fmt.{signed_decimal};

use bidegree::Class;
use edge::{Failed, Sink, write_all};
use f2_vec::BitVec;
use itoa::Buffer;
use milnor_basis::Exps;

/// A part of a line.
#[derive(Clone, Copy, Debug)]
pub enum Part<'a> {
    /// These bytes.
    Text(&'a [u8]),
    /// A number in decimal.
    Number(u64),
    /// Sq(R), as `Sq(0,0,1)`.
    Square(&'a Exps),
    /// A digest, in hexadecimal digits.
    Digest(&'a [u8; 32]),
    /// A class, as `(1,2,0)`.
    Class(Class),
    /// The place of a square: row and internal degree, as `(1,2)`.
    Place(i32, i32),
    /// A vector over the classes of the square in this row and of this internal degree, as `(5,20,0) + (5,20,1)`.
    Sum(i32, i32, &'a BitVec),
    Nothing,
}

/// Writes a text and behind it a number in decimal. After an error some first bytes are written.
fn write_number<S: Sink>(sink: &mut S, before: &[u8], number: u64) -> Result<(), Failed>
    ensures whole { OnOk result (S.written sink.new ≡ with_more (S.written sink.old) (before.now ++ decimal number)) }
    ensures never_fall { S.faults sink.old ≤ S.faults sink.new }
    ensures cause { OnErr result (HasRisen (S.faults sink.old) (S.faults sink.new)) }
    ensures prefix { HasPrefixMore (before.now ++ decimal number) (S.written sink.old) (S.written sink.new) }
{
    let mut buffer = Buffer::new();
    write_all(sink, before)?;
    write_all(sink, buffer.format(number).as_bytes())
}

/// Writes a text and behind it a number with its sign in decimal. After an error some first bytes are written.
fn write_signed<S: Sink>(sink: &mut S, before: &[u8], number: i64) -> Result<(), Failed>
    ensures whole { OnOk result
        (S.written sink.new ≡ with_more (S.written sink.old) (before.now ++ signed_decimal number)) }
    ensures never_fall { S.faults sink.old ≤ S.faults sink.new }
    ensures cause { OnErr result (HasRisen (S.faults sink.old) (S.faults sink.new)) }
    ensures prefix { HasPrefixMore (before.now ++ signed_decimal number) (S.written sink.old) (S.written sink.new) }
{
    let mut buffer = Buffer::new();
    write_all(sink, before)?;
    write_all(sink, buffer.format(number).as_bytes())
}

/// Writes the place of a square: its row `s` and its internal degree `t`. After an error some first bytes are written.
fn write_place<S: Sink>(sink: &mut S, s: i32, t: i32) -> Result<(), Failed>
    ensures whole { OnOk result (S.written sink.new ≡ with_more (S.written sink.old) (square_place s t)) }
    ensures never_fall { S.faults sink.old ≤ S.faults sink.new }
    ensures cause { OnErr result (HasRisen (S.faults sink.old) (S.faults sink.new)) }
    ensures prefix { HasPrefixMore (square_place s t) (S.written sink.old) (S.written sink.new) }
{
    write_signed(sink, b"(", i64::from(s))?;
    write_signed(sink, b",", i64::from(t))?;
    write_all(sink, b")")
}

/// Writes class `i` of the square in row `s` and of internal degree `t`. After an error some first bytes are written.
fn write_class<S: Sink>(sink: &mut S, s: i64, t: i32, i: usize) -> Result<(), Failed>
    ensures whole { OnOk result (S.written sink.new ≡ with_more (S.written sink.old) (class_text s t i)) }
    ensures never_fall { S.faults sink.old ≤ S.faults sink.new }
    ensures cause { OnErr result (HasRisen (S.faults sink.old) (S.faults sink.new)) }
    ensures prefix { HasPrefixMore (class_text s t i) (S.written sink.old) (S.written sink.new) }
{
    write_signed(sink, b"(", s)?;
    write_signed(sink, b",", i64::from(t))?;
    write_number(sink, b",", i as u64)?;
    write_all(sink, b")")
}

/// What stands before a term of a sum.
fn plus(some: bool) -> &'static [u8]
    ensures { result.now ≡ plus some }
{
    match some {
        false => b"",
        true => b" + ",
    }
}

/// Writes a class as a term of a sum, which has one before it where `some` says so. After an error some first bytes are written.
fn write_term<S: Sink>(sink: &mut S, some: bool, s: i64, t: i32, i: usize) -> Result<(), Failed>
    ensures whole { OnOk result (S.written sink.new ≡ with_more (S.written sink.old) (plus some ++ class_text s t i)) }
    ensures never_fall { S.faults sink.old ≤ S.faults sink.new }
    ensures cause { OnErr result (HasRisen (S.faults sink.old) (S.faults sink.new)) }
    ensures prefix { HasPrefixMore (plus some ++ class_text s t i) (S.written sink.old) (S.written sink.new) }
{
    write_all(sink, plus(some))?;
    write_class(sink, s, t, i)
}

/// Writes a vector over the classes of the square in row `s` and of internal degree `t`, as the sum of those where it is one. After
/// an error some first bytes are written.
fn write_sum<S: Sink>(sink: &mut S, s: i64, t: i32, v: &BitVec) -> Result<(), Failed>
    ensures whole { OnOk result (S.written sink.new ≡ with_more (S.written sink.old) (class_sum_text s t v.now)) }
    ensures never_fall { S.faults sink.old ≤ S.faults sink.new }
    ensures cause { OnErr result (HasRisen (S.faults sink.old) (S.faults sink.new)) }
    ensures prefix { HasPrefixMore (class_sum_text s t v.now) (S.written sink.old) (S.written sink.new) }
{
    let mut some = false;
    for i in 0..v.len() {
        if v.get(i) {
            write_term(sink, some, s, t, i)?;
            some = true;
        }
    }
    if some { Ok(()) } else { write_all(sink, b"0") }
}

/// What stands before exponent `i`.
fn separator(i: usize) -> &'static [u8]
    ensures { result.now ≡ separator i }
{
    match i {
        0 => b"",
        _ => b",",
    }
}

/// Writes the exponents in decimal, with a comma between each two. After an error some first bytes are written.
fn write_exponents<S: Sink>(sink: &mut S, r: &Exps) -> Result<(), Failed>
    ensures whole { OnOk result
        (S.written sink.new ≡ with_more (S.written sink.old) (join_with_byte comma (map decimal r.now))) }
    ensures never_fall { S.faults sink.old ≤ S.faults sink.new }
    ensures cause { OnErr result (HasRisen (S.faults sink.old) (S.faults sink.new)) }
    ensures prefix { HasPrefixMore (join_with_byte comma (map decimal r.now)) (S.written sink.old)
        (S.written sink.new) }
{
    for i in 0..r.len() {
        write_number(sink, separator(i), u64::from(r.exponent(i)))?;
    }
    Ok(())
}

/// Writes Sq(R). After an error some first bytes are written.
fn write_square<S: Sink>(sink: &mut S, r: &Exps) -> Result<(), Failed>
    ensures whole { OnOk result (S.written sink.new ≡ with_more (S.written sink.old) (sq_text r.now)) }
    ensures never_fall { S.faults sink.old ≤ S.faults sink.new }
    ensures cause { OnErr result (HasRisen (S.faults sink.old) (S.faults sink.new)) }
    ensures prefix { HasPrefixMore (sq_text r.now) (S.written sink.old) (S.written sink.new) }
{
    write_all(sink, b"Sq(")?;
    write_exponents(sink, r)?;
    write_all(sink, b")")
}

/// Writes a digest in hexadecimal digits. After an error some first bytes are written.
fn write_digest<S: Sink>(sink: &mut S, digest: &[u8; 32]) -> Result<(), Failed>
    ensures whole { OnOk result (S.written sink.new ≡ with_more (S.written sink.old) (encode_lower digest.now)) }
    ensures never_fall { S.faults sink.old ≤ S.faults sink.new }
    ensures cause { OnErr result (HasRisen (S.faults sink.old) (S.faults sink.new)) }
    ensures prefix { HasPrefixMore (encode_lower digest.now) (S.written sink.old) (S.written sink.new) }
{
    let mut digits = [0; 64];
    match hex::encode_to_slice(digest.as_slice(), &mut digits) {
        Ok(()) => write_all(sink, &digits),
        Err(_) => unreachable!(),
    }
}

/// Writes a part. After an error some first bytes are written.
fn write_part<S: Sink>(sink: &mut S, part: &Part) -> Result<(), Failed>
    ensures whole { OnOk result (S.written sink.new ≡ with_more (S.written sink.old) (part_text part.now)) }
    ensures never_fall { S.faults sink.old ≤ S.faults sink.new }
    ensures cause { OnErr result (HasRisen (S.faults sink.old) (S.faults sink.new)) }
    ensures prefix { HasPrefixMore (part_text part.now) (S.written sink.old) (S.written sink.new) }
{
    match part {
        Part::Text(bytes) => write_all(sink, bytes),
        Part::Number(number) => write_number(sink, b"", *number),
        Part::Square(r) => write_square(sink, r),
        Part::Digest(digest) => write_digest(sink, digest),
        Part::Class(class) => write_class(sink, i64::from(class.s), class.t, class.i),
        Part::Place(s, t) => write_place(sink, *s, *t),
        Part::Sum(s, t, v) => write_sum(sink, i64::from(*s), *t, v),
        Part::Nothing => Ok(()),
    }
}

/// Writes the parts one behind the other. After an error some first bytes are written.
pub fn write_parts<S: Sink>(sink: &mut S, parts: &[Part]) -> Result<(), Failed>
    ensures whole { OnOk result (S.written sink.new ≡ with_more (S.written sink.old) (parts_text parts.now)) }
    ensures never_fall { S.faults sink.old ≤ S.faults sink.new }
    ensures cause { OnErr result (HasRisen (S.faults sink.old) (S.faults sink.new)) }
    ensures prefix { HasPrefixMore (parts_text parts.now) (S.written sink.old) (S.written sink.new) }
{
    for part in parts {
        write_part(sink, part)?;
    }
    Ok(())
}
