//! The module that a number draws: a sum of modules of one and of two cells.
ghost use Rattle.std.specs.Prelude.{◌≡◌, ◌<◌, ◌≤◌, ◌+◌, ◌∷◌, ◌++◌, [], ◌+ℤ◌, pos, length, map, option_to_list, filter_map, IfOk, IfSome, OnOk, string_bytes};
ghost use Rattle.std.specs.List.{range_with_len};
ghost use Rattle.module_spec.specs.Spec.{degree_at, number_of};
ghost use Rattle.module_spec.specs.declared.limits.TheConstants.{MAX_SPAN};
ghost use Rattle.finite_module.specs.DerivedAction.{elements, span, derived_from, derived_module, listed_sum, sum_vector};
ghost use Rattle.finite_module.specs.Sample.{drawn, piece_count, square_of, piece, letter, cell_name, cell_degree, cell_of, by_text, named, sample_generators, entry_of, sample_entries, sample_file};
ghost use Rattle.finite_module.specs.Inside.Plain.{plain_value};

use crate::finite_module::Module;
use crate::generators::{Generator, Generators};
use crate::operators::{Operator, Operators};
use f2_vec::BitVec;
use itoa::Buffer;
use memory::Memory;
use milnor_basis::Exps;
use std::alloc::Global;
use std::marker::Model;

/// The numbers that are drawn are below this.
const MODULUS: u64 = 2147483648;

/// The numbers 0 to 11 by the bytes of their decimal texts.
const BY_TEXT: [u32; 12] = [0, 1, 10, 11, 2, 3, 4, 5, 6, 7, 8, 9];

/// A piece of a sample: one cell, or two of which a square takes the bottom one to the top one.
#[derive(Clone, Copy)]
pub(crate) struct Piece {
    /// The degree of its bottom cell.
    shift: u8,
    /// The n of Sq^n, none where there is one cell.
    square: Option<u8>,
}

/// A cell of a piece.
#[derive(Clone, Copy)]
pub(crate) enum Cell {
    Bottom,
    Top,
}

/// A square of a sample: Sq^n takes generator `bottom` to generator `top`.
#[derive(Drop)]
struct Action {
    n: u16,
    bottom: usize,
    top: usize,
}

impl Model for Action {
    ghost use Rattle.std.specs.Prelude.{◌∷◌, []};
    ghost use Rattle.module_spec.specs.Spec.{Entry};

    ghost Value = { Entry };

    ghost view = { λ a. record { n = a.n; generator = a.bottom; sum = a.top ∷ [] } };
}

impl Module {
    /// The module that `n` draws: a sum of 1 + (n mod 12) pieces, each of one cell or of two cells.
    ///
    /// It is drawn with a linear congruential generator: v_0 = n mod 2^31, v_(k+1) = (1103515245 v_k + 12345) mod 2^31. Piece
    /// k, counted from 0, comes from v = v_(k+1). Its lower cell is called `x` with the number k, and its degree is
    /// (v div 256) mod 8. What (v div 65536) mod 5 is tells whether there is a second cell: at 0 there is none, and at 1 to 4
    /// it is called `y` with the number k, and Sq1, Sq2, Sq4 or Sq8 takes the lower cell to it. The generators stand as those
    /// of a module file do, by degree and in one degree by name. So in one degree `x10` stands before `x2`, and each `x`
    /// before each `y`.
    ///
    /// The operators are made directly, and not derived from a file. Both agree for each file whose actions are those of
    /// powers of two, none of which starts where one ends.
    ///
    /// # Errors
    /// `Memory` if allocation fails.
    pub fn sample(alloc: Global, n: u32) -> Result<Self, Memory>
        ensures { IfOk result (λ m. m.plain ≡ derived_module (sample_file n)) }
    {
        let generators = generators(alloc, n)?;
        let actions = actions(alloc, n, &generators)?;
        let span = generators.span();
        let mut operators = Operators::new(alloc, generators)?;
        for degree in 0..span + 1 {
            push_degree(alloc, n, actions.as_slice(), &mut operators, degree)?;
        }
        Ok(Module::new(operators))
    }
}

/// The number that draws piece `k - 1`, and where `k` is 0 the one before the first.
fn drawn(n: u32, k: u32) -> u64
    ensures value { result ≡ drawn n k }
    ensures small { result < MODULUS }
{
    let mut value = u64::from(n) % MODULUS;
    for _ in 0..k {
        value = (1103515245 * value + 12345) % MODULUS;
    }
    value
}

/// How many pieces there are.
fn piece_count(n: u32) -> u32
    ensures { result ≡ piece_count n }
{
    1 + n % 12
}

/// The n of the square of a piece of this kind, none where it has one cell.
fn square_of(kind: u64) -> Option<u8>
    ensures { result ≡ square_of kind }
{
    match kind {
        0 => None,
        1 => Some(1),
        2 => Some(2),
        3 => Some(4),
        _ => Some(8),
    }
}

/// Piece `k`.
fn piece_at(n: u32, k: u32) -> Piece
    requires { k < 12 }
    ensures { result ≡ piece n k }
{
    let value = drawn(n, k + 1);
    Piece {
        shift: (value / 256 % 8) as u8,
        square: square_of(value / 65536 % 5),
    }
}

/// The degree of a cell, none where the piece has no such cell.
fn cell_degree(piece: Piece, cell: Cell) -> Option<u16>
    ensures { result ≡ cell_degree piece cell }
{
    match cell {
        Cell::Bottom => Some(u16::from(piece.shift)),
        Cell::Top => Some(u16::from(piece.shift) + u16::from(piece.square?)),
    }
}

/// The name of a cell of piece `k`.
fn cell_name(alloc: Global, cell: Cell, k: u32) -> Result<String, Memory>
    ensures { IfOk result (λ name. string_bytes name ≡ cell_name cell k) }
{
    let mut buffer = Buffer::new();
    let letter = match cell {
        Cell::Bottom => "x",
        Cell::Top => "y",
    };
    let mut name = String::from_str(alloc, letter)?;
    name.push_str(buffer.format(k))?;
    Ok(name)
}

/// A cell of piece `k`, none where there is no such piece, or no such cell in it.
fn cell_of(alloc: Global, n: u32, cell: Cell, k: u32) -> Result<Option<Generator>, Memory>
    ensures { IfOk result (λ generator. generator ≡ cell_of n cell k) }
{
    if k >= piece_count(n) {
        return Ok(None);
    }
    let Some(degree) = cell_degree(piece_at(n, k), cell) else {
        return Ok(None);
    };
    let name = cell_name(alloc, cell, k)?;
    Ok(Some(Generator::new(name, i32::from(degree))))
}

/// The generators, and behind them the bottom cells or the top cells by the bytes of their names.
fn with_cells(
    alloc: Global,
    n: u32,
    cell: Cell,
    mut generators: Vec<Generator>,
) -> Result<Vec<Generator>, Memory>
    ensures { IfOk result (λ cells. cells.items ≡ generators.items ++ filter_map (cell_of n cell) by_text) }
{
    for k in BY_TEXT {
        match cell_of(alloc, n, cell, k)? {
            Some(generator) => generators.push(generator)?,
            None => {}
        }
    }
    Ok(generators)
}

/// The generators.
fn generators(alloc: Global, n: u32) -> Result<Generators, Memory>
    ensures { IfOk result (λ generators. generators ≡ sample_generators n) }
{
    let bottom = with_cells(alloc, n, Cell::Bottom, Vec::new(alloc))?;
    let named = with_cells(alloc, n, Cell::Top, bottom)?;
    Generators::by_degree(named)
}

/// The number of a cell of piece `k` among the generators, none where it is not one of them.
fn number_of(
    alloc: Global,
    generators: &Generators,
    cell: Cell,
    k: u32,
) -> Result<Option<usize>, Memory>
    ensures { IfOk result (λ number. number ≡ number_of generators.now (cell_name cell k)) }
{
    let name = cell_name(alloc, cell, k)?;
    Ok(generators.number_of(name.as_bytes()))
}

/// The square of piece `k`, none where it has one cell.
fn action_of(
    alloc: Global,
    n: u32,
    generators: &Generators,
    k: u32,
) -> Result<Option<Action>, Memory>
    requires piece { k < 12 }
    requires generators { generators.now ≡ sample_generators n }
    ensures { IfOk result (λ action. action ≡ entry_of n k) }
{
    let Some(square) = piece_at(n, k).square else {
        return Ok(None);
    };
    let Some(bottom) = number_of(alloc, generators, Cell::Bottom, k)? else {
        return Ok(None);
    };
    let Some(top) = number_of(alloc, generators, Cell::Top, k)? else {
        return Ok(None);
    };
    let n = u16::from(square);
    Ok(Some(Action { n, bottom, top }))
}

/// The squares, piece by piece.
fn actions(alloc: Global, n: u32, generators: &Generators) -> Result<Vec<Action>, Memory>
    requires { generators.now ≡ sample_generators n }
    ensures { IfOk result (λ actions. actions.items ≡ sample_entries n) }
{
    let mut actions = Vec::new(alloc);
    for k in 0..piece_count(n) {
        match action_of(alloc, n, generators, k)? {
            Some(action) => actions.push(action)?,
            None => {}
        }
    }
    Ok(actions)
}

/// What Sq^n takes generator `i` to, none where that is zero.
fn target(actions: &[Action], n: u16, i: usize) -> Option<usize>
    ensures { option_to_list result ≡ listed_sum actions.now n i }
{
    for action in actions {
        if action.n == n && action.bottom == i {
            return Some(action.top);
        }
    }
    None
}

/// The value of Sq^n on generator `i`.
fn square_value(
    alloc: Global,
    actions: &[Action],
    generators: &Generators,
    n: u16,
    i: usize,
) -> Result<BitVec, Memory>
    requires { i < length generators.now }
    ensures { IfOk result
        (λ v. v ≡ sum_vector generators.now (listed_sum actions.now n i) (degree_at generators.now i +ℤ pos n)) }
{
    let t = i64::from(generators.degree(i)) + i64::from(n);
    match target(actions, n, i) {
        Some(top) => generators.sum(alloc, &[top], t),
        None => generators.sum(alloc, &[], t),
    }
}

/// The value of Sq(R) on generator `i`.
fn value(
    alloc: Global,
    actions: &[Action],
    generators: &Generators,
    r: &Exps,
    i: usize,
) -> Result<BitVec, Memory>
    requires { i < length generators.now }
    ensures { IfOk result (λ v. v ≡ plain_value generators.now actions.now r.now i) }
{
    match r.len() {
        0 => generators.unit(alloc, i),
        1 => square_value(alloc, actions, generators, r.exponent(0), i),
        _ => BitVec::zero(
            alloc,
            generators.dim_above(i64::from(generators.degree(i)), r),
        ),
    }
}

/// The operator of Sq(R).
fn operator(
    alloc: Global,
    actions: &[Action],
    generators: &Generators,
    r: &Exps,
) -> Result<Operator, Memory>
    ensures { IfOk result (λ operator. operator
        ≡ map (plain_value generators.now actions.now r.now) (range_with_len 0 (length generators.now))) }
{
    let mut values = Vec::with_capacity(alloc, generators.count())?;
    for i in 0..generators.count() {
        values.push(value(alloc, actions, generators, r, i)?)?;
    }
    Ok(Operator::of(values))
}

/// Puts the operators of a degree behind those of lower degrees.
fn push_degree(
    alloc: Global,
    n: u32,
    actions: &[Action],
    operators: &mut Operators,
    degree: u16,
) -> Result<(), Memory>
    requires generators { operators.old.generators ≡ sample_generators n }
    requires actions { actions.now ≡ sample_entries n }
    requires degree { degree ≤ span (sample_generators n) }
    requires small { degree ≤ MAX_SPAN }
    requires before { operators.old.operators ≡ derived_from (sample_file n) [] (elements degree) }
    ensures generators { operators.new.generators ≡ sample_generators n }
    ensures after { OnOk result (operators.new.operators ≡ derived_from (sample_file n) [] (elements (degree + 1))) }
{
    for k in 0..operators.basis().of_degree(degree).len() {
        let r = operators.basis().of_degree(degree)[k];
        let operator = operator(alloc, actions, operators.generators(), &r)?;
        operators.push(&r, operator)?;
    }
    Ok(())
}
