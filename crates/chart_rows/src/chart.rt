//! Rows that grow by the parts of a chart file.
ghost use Rattle.std.specs.Prelude.{◌≡◌, ◌≢◌, ℕ, ◌<◌, ◌≤◌, length, IfOk, IfErr, OnOk};
ghost use Rattle.square.specs.Squares.{over};
ghost use Rattle.chart_rows.specs.Standing.{AreCharted};
ghost use Rattle.chart_rows.specs.Placing.{AreRowsOf, IsChartRefusal, IsMisplacedAt, MayStandAll, no_rows, part_in, place_refusal, rows_of_parts, with_part};
ghost use Rattle.chart_rows.specs.declared.fault.ChartFault.TheVariants.{Memory as WantOfMemory};

use crate::fault::{ChartFault, PlaceFault};
use crate::place::Place;
use bidegree::MAX_S;
use chart_file::ColumnPart;
use finite_module::Module;
use memory::Memory;
use milnor_basis::Basis;
use resolution_images::{Row, empty_rows};
use std::alloc::Global;
use std::marker::Model;

/// The rows that parts of columns say so far.
#[derive(Drop)]
pub struct Chart<'a> {
    module: &'a Module,
    basis: &'a Basis,
    rows: Vec<Row>,
}

impl<'a> Model for Chart<'a> {
    ghost use Rattle.square.specs.Squares.{over};
    ghost use Rattle.chart_rows.specs.Standing.{AreCharted};
    ghost use Rattle.chart_rows.specs.Placing.{ChartRows};

    ghost Value = { ChartRows };

    ghost view = { λ c. record { resolved = c.module.now; reach = c.basis.now; rows = c.rows.items } };

    ghost invariant = { λ c. AreCharted (over c.module.now) c.rows.items };
}

impl<'a> Chart<'a> {
    /// The chart of no part.
    ///
    /// # Errors
    /// `Memory` if allocation fails.
    pub fn new(alloc: Global, module: &'a Module, basis: &'a Basis) -> Result<Chart<'a>, Memory>
        ensures { IfOk result (λ c. c ≡ record { resolved = module.now; reach = basis.now; rows = no_rows }) }
    {
        let rows = empty_rows(alloc, usize::from(MAX_S) + 1)?;
        Ok(Chart {
            module,
            basis,
            rows,
        })
    }

    /// The module of which this is a chart.
    pub fn module(&self) -> &Module
        ensures { result.now ≡ self.now.resolved }
    {
        self.module
    }

    /// The rows, one for each of the greatest range. An image has no coordinate at a generator of its own degree.
    pub fn rows(&self) -> &[Row]
        ensures rows { result.now ≡ self.now.rows }
        ensures charted { AreCharted (over self.now.resolved) self.now.rows }
    {
        self.rows.as_slice()
    }

    /// Puts the squares of a part behind those of their rows, each if it may stand there. The Milnor bases have to reach through the
    /// part's degree.
    ///
    /// # Errors
    /// What keeps the first square from that which may not stand there, and `Memory` if allocation fails. The rows are then of no use.
    pub fn place(&mut self, alloc: Global, part: &ColumnPart) -> Result<(), PlaceFault>
        requires { part.now.above ≤ self.old.reach }
        ensures may { OnOk result (MayStandAll (over self.old.resolved) self.old.rows part.now) }
        ensures put { OnOk result (self.new.rows ≡ with_part (over self.old.resolved) part.now self.old.rows) }
        ensures refused { IfErr result (IsMisplacedAt (over self.old.resolved) self.old.rows part.now) }
        ensures module { self.new.resolved ≡ self.old.resolved }
        ensures basis { self.new.reach ≡ self.old.reach }
    {
        let first = part.first();
        let k = part.above();
        for (h, square) in part.squares().iter().enumerate() {
            let place = Place {
                module: self.module,
                basis: self.basis,
                s: first + h as u16,
                k,
            };
            place.put(alloc, self.rows.as_mut_slice(), square)?;
        }
        Ok(())
    }
}

/// The rows that the parts of a file say, in order. The Milnor bases have to reach through their degrees.
///
/// # Errors
/// `Misplaced` with the number of the first part that has a square which may not stand where those before it do, and what is wrong with
/// the first such square, and `Memory` if allocation fails.
pub fn chart_of<'a>(
    alloc: Global,
    module: &'a Module,
    basis: &'a Basis,
    parts: &[ColumnPart],
) -> Result<Chart<'a>, ChartFault>
    requires { (n : ℕ) → n < length parts.now → (part_in parts.now n).above ≤ basis.now }
    ensures module { IfOk result (λ c. c.resolved ≡ module.now) }
    ensures basis { IfOk result (λ c. c.reach ≡ basis.now) }
    ensures may { IfOk result (λ c. AreRowsOf (over module.now) parts.now) }
    ensures rows { IfOk result (λ c. c.rows ≡ rows_of_parts (over module.now) parts.now) }
    ensures refused { IfErr result (IsChartRefusal (over module.now) parts.now) }
{
    let mut chart = Chart::new(alloc, module, basis)?;
    for (n, part) in parts.iter().enumerate() {
        match chart.place(alloc, part) {
            Ok(()) => {}
            Err(fault) => return Err(refusal(n as u64, fault)),
        }
    }
    Ok(chart)
}

/// Why a file is no chart of which the part of this number was not placed.
fn refusal(number: u64, fault: PlaceFault) -> ChartFault
    ensures { result ≡ place_refusal number fault }
{
    match fault {
        PlaceFault::Memory => ChartFault::Memory,
        fault => ChartFault::Misplaced { number, fault },
    }
}
