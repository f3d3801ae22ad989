//! A square of the resolution: the new generators with their images, and the kernel.
ghost use Rattle.std.specs.Prelude.{◌≡◌, ◌<◌, ◌≤◌, ◌^◌, ◌++◌, ◌+ℤ◌, pos, [], ◌∷◌, Some, option_map, IsSome, IfSome, IfOk, IfErr};
ghost use Rattle.resolution_laws.specs.Resolution.{IsStep};
ghost use Rattle.square.specs.Squares.{entry_of, IsSquare, IsQuasi, IsKeptOf, AreWidths, KeptWhereMade, over, bottom_of};
ghost use Rattle.square.specs.Tables.{IsReadable, IsQuasiBehind, IsReadBehind};
ghost use Rattle.square.specs.Inside.Kernel.{rows_of, quasi_of};

use crate::inputs::Inputs;
use crate::kernel::Kernel;
use crate::table::Table;
use f2_matrix::{Reduced, Rows};
use f2_vec::BitVec;
use finite_module::Module;
use memory::Memory;
use start::Start;
use std::alloc::Global;
use std::marker::Model;
use std::snapshot::Snapshot;

/// A square (s, t) of a resolution: the images of its new generators, and the reduced basis of the kernel of d_s in degree
/// t. It was made from the squares before it, or else it was read from a save file. It was read exactly if its start has a
/// square at its place, whether or not it has kept a reduction.
#[derive(Drop)]
pub struct Square {
    module: Snapshot<Module>,
    start: Start,
    s: u16,
    above: u16,
    t: i32,
    gens: Vec<BitVec>,
    kernel: Kernel,
    target_width: u64,
    width: u64,
}

impl Model for Square {
    ghost use Rattle.square.specs.Squares.{Placed};

    ghost Value = { Placed };

    ghost use Rattle.square.specs.Squares.{IsMeasured};
    ghost use Rattle.square.specs.Inside.Kernel.{rows_of, quasi_of};

    ghost view = { λ q. record {
      resolved = q.module.value;
      start = q.start;
      s = q.s;
      above = q.above;
      content = record { images = q.gens.items; kernel = rows_of q.kernel };
      quasi = quasi_of q.kernel;
    } };

    ghost invariant = { λ q. IsMeasured
        (record {
          resolved = q.module.value;
          start = q.start;
          s = q.s;
          above = q.above;
          content = record { images = q.gens.items; kernel = rows_of q.kernel };
          quasi = quasi_of q.kernel;
        })
        q.t q.target_width q.width };
}

impl Square {
    /// The square that is made from these inputs. `quasi` is the reduction of the matrix of d_s in its degree, with the new
    /// generators. The kernel is kept once, as a part of it.
    pub fn made(inputs: &Inputs, gens: Vec<BitVec>, kernel: Vec<BitVec>, quasi: Reduced) -> Square
        requires step { IsStep (over inputs.now.resolved) inputs.now.below inputs.now.squares
            (record { images = gens.items; kernel = kernel.items }) }
        requires quasi { IsQuasi (over inputs.now.resolved) inputs.now.below inputs.now.squares
            (record { images = gens.items; kernel = kernel.items }) quasi }
        ensures { result ≡ record {
          resolved = inputs.now.resolved;
          start = inputs.now.start;
          s = inputs.now.s;
          above = inputs.now.above;
          content = record { images = gens.items; kernel = kernel.items };
          quasi = Some quasi;
        } }
    {
        drop(kernel);
        Square::reduced(inputs, gens, quasi)
    }

    /// The square that is made from these inputs, if nobody holds its kernel rows beside the reduction that has them.
    pub fn reduced(inputs: &Inputs, gens: Vec<BitVec>, quasi: Reduced) -> Square
        requires step { IsStep (over inputs.now.resolved) inputs.now.below inputs.now.squares
            (record { images = gens.items; kernel = quasi.kernel }) }
        requires quasi { IsQuasi (over inputs.now.resolved) inputs.now.below inputs.now.squares
            (record { images = gens.items; kernel = quasi.kernel }) quasi }
        ensures { result ≡ record {
          resolved = inputs.now.resolved;
          start = inputs.now.start;
          s = inputs.now.s;
          above = inputs.now.above;
          content = record { images = gens.items; kernel = quasi.kernel };
          quasi = Some quasi;
        } }
    {
        let target_width = quasi.cols() as u64;
        let width = quasi.height() as u64;
        Square {
            module: Snapshot::of(inputs.module()),
            start: inputs.start().again(),
            s: inputs.s(),
            above: inputs.above(),
            t: inputs.t(),
            gens,
            kernel: Kernel::Reduced(quasi),
            target_width,
            width,
        }
    }

    /// The square that was read from a save file, the next of its row behind those that were read before. Where it was read with
    /// the reduction of the matrix of d_s in its degree, with its generators, it keeps that; the kernel is then kept once, as a
    /// part of it.
    pub fn read(
        table: &Table,
        s: u16,
        t: i32,
        gens: Vec<BitVec>,
        kernel: Vec<BitVec>,
        quasi: Option<Reduced>,
    ) -> Square
        requires content { IsReadable table.now s t (record { images = gens.items; kernel = kernel.items }) }
        requires quasi { IfSome quasi (IsQuasiBehind table.now s t
            (record { images = gens.items; kernel = kernel.items })) }
        ensures resolved { result.resolved ≡ table.now.resolved }
        ensures start { result.start ≡ table.now.start ++ entry_of result ∷ [] }
        ensures s { result.s ≡ s }
        ensures t { t ≡ bottom_of table.now.resolved +ℤ pos result.above }
        ensures content { result.content ≡ record { images = gens.items; kernel = kernel.items } }
        ensures quasi { result.quasi ≡ quasi }
    {
        Square::read_with(table, s, t, gens, Kernel::of(quasi, kernel))
    }

    /// The square that was read with this reduction, if nobody holds its kernel rows beside the reduction that has them.
    pub fn read_reduced(table: &Table, s: u16, t: i32, gens: Vec<BitVec>, quasi: Reduced) -> Square
        requires content { IsReadable table.now s t (record { images = gens.items; kernel = quasi.kernel }) }
        requires quasi { IsQuasiBehind table.now s t (record { images = gens.items; kernel = quasi.kernel }) quasi }
        ensures { IsReadBehind table.now s t (record { images = gens.items; kernel = quasi.kernel }) (Some quasi) result }
    {
        Square::read_with(table, s, t, gens, Kernel::Reduced(quasi))
    }

    /// The square that was read with this kernel.
    fn read_with(table: &Table, s: u16, t: i32, gens: Vec<BitVec>, kernel: Kernel) -> Square
        requires content { IsReadable table.now s t (record { images = gens.items; kernel = rows_of kernel }) }
        requires quasi { IfSome (quasi_of kernel) (IsQuasiBehind table.now s t
            (record { images = gens.items; kernel = rows_of kernel })) }
        ensures { IsReadBehind table.now s t (record { images = gens.items; kernel = rows_of kernel }) (quasi_of kernel)
            result }
    {
        let above = table.above(t);
        let (target_width, width) = match table.next_widths(s, t, gens.len()) {
            Some(widths) => widths,
            None => unreachable!(),
        };
        let start = table.start().then(s, above, gens.as_slice(), kernel.rows());
        Square {
            module: Snapshot::of(table.module()),
            start,
            s,
            above,
            t,
            gens,
            kernel,
            target_width,
            width,
        }
    }

    /// A square of this module that holds what this one holds, with its reduction: that of the matrix of d_s in its degree, with
    /// its generators. The images of these are copied.
    ///
    /// # Errors
    /// `Memory`, with the reduction, if allocation fails.
    pub(crate) fn with_quasi(
        &self,
        alloc: Global,
        module: &Module,
        quasi: Reduced,
    ) -> Result<Square, (Memory, Reduced)>
        requires resolved { module.now ≡ self.now.resolved }
        requires quasi { IsKeptOf self.now quasi }
        ensures square { IfOk result (λ q. q ≡ record self.now { quasi = Some quasi }) }
        ensures returned { IfErr result (λ e. e.1 ≡ quasi) }
    {
        let Ok(gens) = Vec::from_clones(alloc, self.gens.as_slice()) else {
            return Err((Memory, quasi));
        };
        Ok(Square {
            module: Snapshot::of(module),
            start: self.start.again(),
            s: self.s,
            above: self.above,
            t: self.t,
            gens,
            kernel: Kernel::Reduced(quasi),
            target_width: self.target_width,
            width: self.width,
        })
    }

    /// The reduction that it has kept, which it gives up.
    pub(crate) fn into_quasi(self) -> Reduced
        requires { IsSome self.quasi }
        ensures { Some result ≡ self.quasi }
    {
        let Square { kernel, .. } = self;
        match kernel {
            Kernel::Reduced(quasi) => quasi,
            Kernel::Bare(_) => unreachable!(),
        }
    }

    /// Its row.
    pub fn s(&self) -> u16
        ensures { result ≡ self.now.s }
    {
        self.s
    }

    /// Its internal degree.
    pub fn t(&self) -> i32
        ensures { result ≡ bottom_of self.now.resolved +ℤ pos self.now.above }
    {
        self.t
    }

    /// How many degrees it is above the module's bottom.
    pub fn above(&self) -> u16
        ensures above { result ≡ self.now.above }
        ensures is_square { IsSquare self.now }
    {
        self.above
    }

    /// The dimensions, in its degree, of what d_s goes to and of F_s with its generators.
    pub fn widths(&self) -> (u64, u64)
        ensures { AreWidths self.now result.0 result.1 }
    {
        (self.target_width, self.width)
    }

    /// The images of the new generators.
    pub fn gens(&self) -> &[BitVec]
        ensures { result.now ≡ self.now.content.images }
    {
        self.gens.as_slice()
    }

    /// The echelon rows of the kernel.
    pub fn kernel(&self) -> &[BitVec]
        ensures { result.now ≡ self.now.content.kernel }
    {
        self.kernel.rows()
    }

    /// The echelon rows of the kernel, for one more owner: shared where the square has kept a reduction that shares them, and
    /// copied otherwise.
    ///
    /// # Errors
    /// `Memory` if allocation fails, or if there are too many owners to count.
    pub fn kernel_rows(&self, alloc: Global) -> Result<Rows, Memory>
        ensures { IfOk result (λ rows. rows ≡ self.now.content.kernel) }
    {
        self.kernel.shared(alloc)
    }

    /// The reduction of the matrix of d_s in its degree, if it has kept it. A square that was made always has, and one that was
    /// read has it where it was read with it, or was given it in a table.
    pub fn kept_quasi(&self) -> Option<&Reduced>
        ensures kept { option_map (λ r. r.now) result ≡ self.now.quasi }
        ensures where_made { KeptWhereMade self.now }
        ensures is_square { IsSquare self.now }
    {
        self.kernel.quasi()
    }

    /// The squares that were read up to it.
    pub(crate) fn start(&self) -> &Start
        ensures start { result.now ≡ self.now.start }
        ensures is_square { IsSquare self.now }
    {
        &self.start
    }
}
