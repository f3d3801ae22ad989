//! The canonical text of a module.
ghost use Rattle.std.specs.Prelude.{◌≡◌, ◌<◌, ◌+◌, ◌++◌, [], ◌∷◌, pos, ◌+ℤ◌, length, map, codes, decimal, IfOk, EachIndex, slice_index};
ghost use Rattle.std.specs.List.{flat_map, range_with_len, items_where_true};
ghost use Rattle.module_spec.specs.Spec.{degree_at, powers};
ghost use Rattle.finite_module.specs.Module.{generators_in, width};
ghost use Rattle.finite_module.specs.Text.{newline, name_at, generator_line, joined_by_plus, sum_text, square_line, canonical_text};

use crate::exponents::sq;
use crate::generators::Generators;
use crate::operators::Operators;
use f2_vec::BitVec;
use itoa::Buffer;
use memory::Memory;
use module_spec::POWERS;
use std::alloc::Global;

/// A line for each generator, and one for each Sq^n of a generator, n a power of two, that is not zero.
pub(crate) fn canonical_text(alloc: Global, operators: &Operators) -> Result<Vec<u8>, Memory>
    ensures { IfOk result (λ text. text.items ≡ canonical_text operators.now) }
{
    let mut text = generator_lines(alloc, operators.generators())?;
    let lines = action_lines(alloc, operators)?;
    text.extend_from_slice(lines.as_slice())?;
    Ok(text)
}

/// The lines of the generators.
fn generator_lines(alloc: Global, generators: &Generators) -> Result<Vec<u8>, Memory>
    ensures { IfOk result (λ text. text.items ≡ flat_map generator_line generators.now) }
{
    let mut text = Vec::new(alloc);
    for i in 0..generators.count() {
        let line = generator_line(alloc, generators.name(i), generators.degree(i))?;
        text.extend_from_slice(line.as_slice())?;
    }
    Ok(text)
}

/// The line of a generator.
fn generator_line(alloc: Global, name: &str, degree: i32) -> Result<Vec<u8>, Memory>
    ensures { IfOk result (λ line. line.items ≡ generator_line (record { name = name.now; degree = degree })) }
{
    let mut buffer = Buffer::new();
    let mut line = Vec::from_slice(alloc, b"gen ")?;
    line.extend_from_slice(name.as_bytes())?;
    line.push(b' ')?;
    line.extend_from_slice(buffer.format(degree).as_bytes())?;
    line.push(b'\n')?;
    Ok(line)
}

/// The lines of the squares on each generator.
fn action_lines(alloc: Global, operators: &Operators) -> Result<Vec<u8>, Memory>
    ensures { IfOk result (λ text. text.items ≡ flat_map (λ i. flat_map (square_line operators.now i) powers)
        (range_with_len 0 (length operators.now.generators))) }
{
    let mut text = Vec::new(alloc);
    for i in 0..operators.generators().count() {
        let lines = square_lines(alloc, operators, i)?;
        text.extend_from_slice(lines.as_slice())?;
    }
    Ok(text)
}

/// The lines of the squares on generator `i`.
fn square_lines(alloc: Global, operators: &Operators, i: usize) -> Result<Vec<u8>, Memory>
    requires { i < length operators.now.generators }
    ensures { IfOk result (λ text. text.items ≡ flat_map (square_line operators.now i) powers) }
{
    let mut text = Vec::new(alloc);
    for n in POWERS {
        let line = square_line(alloc, operators, i, n)?;
        text.extend_from_slice(line.as_slice())?;
    }
    Ok(text)
}

/// The line of Sq^n on generator `i`, none where that is zero.
fn square_line(alloc: Global, operators: &Operators, i: usize, n: u16) -> Result<Vec<u8>, Memory>
    requires generator { i < length operators.now.generators }
    requires square { 0 < n }
    ensures { IfOk result (λ line. line.items ≡ square_line operators.now i n) }
{
    let value = operators.value(alloc, &sq(n), i)?;
    if value.is_zero() {
        return Ok(Vec::new(alloc));
    }
    let generators = operators.generators();
    let degree = i64::from(generators.degree(i)) + i64::from(n);
    let sum = sum_text(alloc, generators, degree, &value)?;
    equation(alloc, n, generators.name(i), sum.as_slice())
}

/// The line that says what Sq^n on a generator is.
fn equation(alloc: Global, n: u16, name: &str, sum: &[u8]) -> Result<Vec<u8>, Memory>
    ensures { IfOk result (λ line. line.items
        ≡ codes "Sq" ++ (decimal n ++ (codes " " ++ (name.now ++ (codes " = " ++ (sum.now ++ newline)))))) }
{
    let mut buffer = Buffer::new();
    let mut line = Vec::from_slice(alloc, b"Sq")?;
    line.extend_from_slice(buffer.format(n).as_bytes())?;
    line.push(b' ')?;
    line.extend_from_slice(name.as_bytes())?;
    line.extend_from_slice(b" = ")?;
    line.extend_from_slice(sum)?;
    line.push(b'\n')?;
    Ok(line)
}

/// The names of the generators of a vector of degree `t`.
pub(crate) fn sum_text(
    alloc: Global,
    generators: &Generators,
    t: i64,
    v: &BitVec,
) -> Result<Vec<u8>, Memory>
    requires { length v.now ≡ width generators.now t }
    ensures { IfOk result (λ text. text.items ≡ sum_text generators.now t v.now) }
{
    let numbers = numbers_of(alloc, generators, t, v)?;
    joined_names(alloc, generators, numbers.as_slice())
}

/// The numbers of the generators of a vector of degree `t`.
fn numbers_of(
    alloc: Global,
    generators: &Generators,
    t: i64,
    v: &BitVec,
) -> Result<Vec<usize>, Memory>
    requires { length v.now ≡ width generators.now t }
    ensures numbers { IfOk result (λ numbers. numbers.items ≡ items_where_true v.now (generators_in generators.now t)) }
    ensures within { IfOk result
        (λ numbers. EachIndex numbers.items (λ k. slice_index numbers.items k < length generators.now)) }
{
    let mut numbers = Vec::new(alloc);
    let within = generators.within(t);
    let start = within.start;
    for i in start..within.end {
        if v.get(i - start) {
            numbers.push(i)?;
        }
    }
    Ok(numbers)
}

/// The names of generators, with ` + ` between each two.
fn joined_names(
    alloc: Global,
    generators: &Generators,
    numbers: &[usize],
) -> Result<Vec<u8>, Memory>
    requires { EachIndex numbers.now (λ k. slice_index numbers.now k < length generators.now) }
    ensures { IfOk result (λ text. text.items ≡ joined_by_plus (map (name_at generators.now) numbers.now)) }
{
    let mut text = Vec::new(alloc);
    for (k, number) in numbers.iter().enumerate() {
        if k > 0 {
            text.extend_from_slice(b" + ")?;
        }
        text.extend_from_slice(generators.name(*number).as_bytes())?;
    }
    Ok(text)
}
