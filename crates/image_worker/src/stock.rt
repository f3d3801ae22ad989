//! Rows of images in the making, which several workers share.
ghost use Rattle.std.specs.Prelude.{◌≡◌, ◌≤◌, ◌<◌, ◌+◌, ◌↔◌, ◌≤ℤ◌, ℕ, suc, pos, None, IfOk, IfSome, OnOk, OnErr, slice_index_or, option_map, length, replicate};
ghost use Rattle.std.specs.Arc.{arc_value};
ghost use Rattle.bidegree.specs.declared.range.TheConstants.{MAX_S, MAX_T};
ghost use Rattle.bidegree.specs.declared.shape.Shape.TheVariants.{Rectangle, Stems};
ghost use Rattle.resolution_laws.specs.Resolution.{Content};
ghost use Rattle.square.specs.Squares.{over, bottom_of};
ghost use Rattle.resolution_images.specs.BareRows.{AreOfCanonical, AreOfStems};
ghost use Rattle.resolution_images.specs.Made.{AreUnder, IsSquareInStems, IsToCover};
ghost use Rattle.image_worker.specs.Stocks.{HasStems, HasKernel, extent_of, fronts_of, IsNextImage, IsOneMore, IsMadeAt, IsGeneratorCount};

use crate::inputs::{ImageInputs, MadeImages, extent_through};
use bidegree::{Range, Shape};
use f2_kernel::Kernel;
use f2_vec::BitVec;
use finite_module::Module;
use free_module::Gens;
use memory::Memory;
use milnor_basis::Basis;
use resolution_existence::canonical_table_exists;
use resolution_images::{Extent, Images, Row, degree, empty_rows};
use std::alloc::Global;
use std::marker::Model;
use std::sync::Arc;
use stem_laws::rows_in_stems_are_whole;

/// The images of a range, row by row, as far as their squares are done. Of each degree there is the kernel of the last square that
/// is done, as long as the square above it is not. In stems the kernel behind the last square of a row is made by itself.
#[derive(Drop)]
pub struct ImageStock {
    module: Arc<Module>,
    basis: Arc<Basis>,
    shape: Shape,
    range: Range,
    rows: Vec<Row>,
    starts: u16,
    kernels: Vec<Option<Arc<Kernel>>>,
}

impl Model for ImageStock {
    ghost use Rattle.std.specs.Prelude.{◌≡◌, ◌+◌, length, slice_index_or, None, option_map};
    ghost use Rattle.std.specs.Arc.{arc_value};
    ghost use Rattle.square.specs.Squares.{over};
    ghost use Rattle.image_worker.specs.Stocks.{ImageRows, extent_in};
    ghost use Rattle.image_worker.specs.Inside.Kept.{IsRange, AreKept};

    ghost Value = { ImageRows };

    ghost view = { λ i. record {
      subject = record { resolved = arc_value i.module; range = i.range; shape = i.shape };
      rows = i.rows.items;
      starts = i.starts;
    } };

    ghost invariant = { λ i. IsRange i.shape i.range (arc_value i.basis)
        × (length i.kernels.items ≡ i.range.t + 1)
        × AreKept (over (arc_value i.module)) (extent_in i.shape i.range) i.range.t i.rows.items i.starts
        (λ k. option_map arc_value (slice_index_or i.kernels.items k None)) };
}

impl ImageStock {
    /// The images of a range of this shape, of which no square is done.
    ///
    /// # Errors
    /// `Memory` if allocation fails.
    pub fn new(
        alloc: Global,
        resolved: Module,
        range: Range,
        shape: Shape,
    ) -> Result<ImageStock, Memory>
        requires rows { range.s ≤ MAX_S }
        requires degrees { range.t ≤ MAX_T }
        requires stems { HasStems shape range }
        ensures subject { IfOk result
            (λ stock. stock.subject ≡ record { resolved = resolved; range = range; shape = shape }) }
        ensures fronts { IfOk result (λ stock. (i : ℕ) → fronts_of stock i ≡ 0) }
    {
        let basis = Basis::new(alloc, range.t)?;
        let rows = empty_rows(alloc, usize::from(range.s) + 1)?;
        let kernels = no_kernels(alloc, usize::from(range.t) + 1)?;
        Ok(ImageStock {
            module: Arc::new(alloc, resolved)?,
            basis: Arc::new(alloc, basis)?,
            shape,
            range,
            rows,
            starts: 0,
            kernels,
        })
    }

    /// The least degree of the module.
    pub(crate) fn least_degree(&self) -> i32
        ensures bottom { result ≡ bottom_of self.now.subject.resolved }
        ensures small { result ≤ℤ pos 128 }
        ensures degrees { self.now.subject.range.t ≤ MAX_T }
    {
        self.module.bottom()
    }

    /// The shape of the range.
    pub(crate) fn shape_of_range(&self) -> Shape
        ensures shape { result ≡ self.now.subject.shape }
        ensures stems { HasStems self.now.subject.shape self.now.subject.range }
    {
        self.shape
    }

    /// How many rows there are.
    pub(crate) fn row_count(&self) -> u16
        ensures rows { result ≡ self.now.subject.range.s + 1 }
        ensures past { (i : ℕ) → result ≤ i → fronts_of self.now i ≡ 0 }
        ensures falls { (i k : ℕ) → suc i < result → k ≤ (extent_of self.now.subject).n + suc i →
            k < fronts_of self.now (suc i) → k < fronts_of self.now i }
        ensures within { (i : ℕ) → i < result → fronts_of self.now i ≤ self.now.subject.range.t + 1 }
        ensures stems { HasStems self.now.subject.shape self.now.subject.range }
    {
        self.range.s + 1
    }

    /// How many places of row `s` are done: its squares, and the one behind the last of them.
    pub fn done(&self, s: u16) -> u64
        ensures front { result ≡ fronts_of self.now s }
        ensures short { result ≤ MAX_T + 1 }
    {
        let place = usize::from(s);
        if place >= self.rows.len() {
            return 0;
        }
        let squares = self.rows[place].counts().len() as u64;
        if s < self.starts {
            return squares + 1;
        }
        squares
    }

    /// How many generators the square in row `s` and `above` degrees above the bottom has, none exactly where it is not done.
    pub fn count(&self, s: u16, above: u16) -> Option<usize>
        ensures none { (result ≡ None) ↔ (fronts_of self.now s ≤ above) }
        ensures count { IfSome result (IsGeneratorCount self.now.subject s above) }
    {
        rows_in_stems_are_whole();
        if u64::from(above) >= self.done(s) {
            return None;
        }
        let counts = self.rows[usize::from(s)].counts();
        let place = usize::from(above);
        if place < counts.len() {
            return Some(counts[place]);
        }
        Some(0)
    }

    /// What the next place of row `s`, which is `above` degrees above the bottom, is made from.
    ///
    /// # Errors
    /// `Memory` if allocation fails, or if there are too many owners to count.
    pub fn inputs_at(&self, alloc: Global, s: u16, above: u16) -> Result<ImageInputs, Memory>
        requires next { IsNextImage self.now s above }
        ensures { IfOk result
            (λ inputs. inputs ≡ record { subject = self.now.subject; s = s; above = above }) }
    {
        canonical_table_exists();
        rows_in_stems_are_whole();
        let (Ok(module), Ok(basis)) = (Arc::try_clone(&self.module), Arc::try_clone(&self.basis))
        else {
            return Err(Memory);
        };
        let row = self.rows[usize::from(s)].copy(alloc, self.module.bottom())?;
        let under = self.under(alloc, s, above)?;
        let below = self.below(s, above)?;
        Ok(ImageInputs {
            module,
            basis,
            shape: self.shape,
            range: self.range,
            s,
            above,
            row,
            under,
            below,
        })
    }

    /// The generators under the next place of row `s`, which is `above` degrees above the bottom. Under row 0 there are none.
    ///
    /// # Errors
    /// `Memory` if allocation fails.
    fn under(&self, alloc: Global, s: u16, above: u16) -> Result<Gens, Memory>
        requires next { IsNextImage self.now s above }
        ensures { IfOk result
            (λ gens. AreUnder (over self.now.subject.resolved) (extent_of self.now.subject) s above gens) }
    {
        canonical_table_exists();
        rows_in_stems_are_whole();
        if s == 0 {
            return Ok(Gens::new(alloc));
        }
        let row = &self.rows[usize::from(s - 1)];
        row.first_gens(alloc, self.module.bottom(), usize::from(above) + 1)
    }

    /// What the next place of row `s`, which is `above` degrees above the bottom, has to cover, where that lies here. For row 0
    /// there is nothing.
    ///
    /// # Errors
    /// `Memory` if there are too many owners to count.
    fn below(&self, s: u16, above: u16) -> Result<Option<Arc<Kernel>>, Memory>
        requires next { IsNextImage self.now s above }
        ensures first { IfOk result (λ kernel. s ≡ 0 → option_map arc_value kernel ≡ None) }
        ensures covers { IfOk result (λ kernel. 0 < s → above ≤ (extent_of self.now.subject).n + s →
            HasKernel (option_map arc_value kernel)
            (IsToCover (over self.now.subject.resolved) (extent_of self.now.subject) s above)) }
    {
        if s == 0 {
            return Ok(None);
        }
        let Some(kernel) = &self.kernels[usize::from(above)] else {
            return Ok(None);
        };
        match Arc::try_clone(kernel) {
            Ok(kernel) => Ok(Some(kernel)),
            Err(_) => Err(Memory),
        }
    }

    /// Puts what was made at the next place of row `s`, which is `above` degrees above the bottom.
    ///
    /// # Errors
    /// `Memory` if allocation fails; the place is then not done.
    pub fn put_at(&mut self, s: u16, above: u16, made: MadeImages) -> Result<(), Memory>
        requires next { IsNextImage self.old s above }
        requires made { IsMadeAt (over self.old.subject.resolved) (extent_of self.old.subject) s above
            made.images.items (option_map arc_value made.kernel) }
        ensures subject { self.new.subject ≡ self.old.subject }
        ensures ok { OnOk result (IsOneMore s (fronts_of self.old) (fronts_of self.new)) }
        ensures err { OnErr result (self.new ≡ self.old) }
    {
        let MadeImages { images, kernel } = made;
        let last = self.extent().n + s;
        if above > last {
            self.put_start(s, above, kernel);
            return Ok(());
        }
        self.put_square(s, above, images, kernel)
    }

    /// Puts the kernel behind the last square of row `s`, which is what the square above has to cover.
    fn put_start(&mut self, s: u16, above: u16, kernel: Option<Arc<Kernel>>)
        requires next { IsNextImage self.old s above }
        requires start { (extent_of self.old.subject).n + s < above }
        requires covers { s < self.old.subject.range.s → HasKernel (option_map arc_value kernel)
            (IsToCover (over self.old.subject.resolved) (extent_of self.old.subject) (suc s) above) }
        ensures subject { self.new.subject ≡ self.old.subject }
        ensures ok { IsOneMore s (fronts_of self.old) (fronts_of self.new) }
    {
        self.starts += 1;
        self.kernels[usize::from(above)] = kernel;
    }

    /// Puts the images of the next square of row `s`, and what the square above has to cover.
    ///
    /// # Errors
    /// `Memory` if allocation fails; the square is then not done.
    fn put_square(
        &mut self,
        s: u16,
        above: u16,
        images: Vec<BitVec>,
        kernel: Option<Arc<Kernel>>,
    ) -> Result<(), Memory>
        requires next { IsNextImage self.old s above }
        requires square { above ≤ (extent_of self.old.subject).n + s }
        requires images { (content : Content) × (content.images ≡ images.items)
            × IsSquareInStems (over self.old.subject.resolved) (extent_of self.old.subject) s above content }
        requires covers { s < self.old.subject.range.s → HasKernel (option_map arc_value kernel)
            (IsToCover (over self.old.subject.resolved) (extent_of self.old.subject) (suc s) above) }
        ensures subject { self.new.subject ≡ self.old.subject }
        ensures ok { OnOk result (IsOneMore s (fronts_of self.old) (fronts_of self.new)) }
        ensures err { OnErr result (self.new ≡ self.old) }
    {
        canonical_table_exists();
        rows_in_stems_are_whole();
        let t = degree(&self.module, above);
        self.rows[usize::from(s)].push(t, images)?;
        self.kernels[usize::from(above)] = kernel;
        Ok(())
    }

    /// The rows and the stems in which squares are made.
    fn extent(&self) -> Extent
        ensures extent { result ≡ extent_of self.now.subject }
        ensures rows { self.now.subject.range.s ≤ MAX_S }
        ensures small { result.n ≤ MAX_T }
    {
        extent_through(self.shape, self.range)
    }

    /// The images, all squares of which are done.
    pub fn into_images(self) -> Images
        requires { (i k : ℕ) → i ≤ self.subject.range.s → k ≤ self.subject.range.t →
            k ≤ (extent_of self.subject).n + i → k < fronts_of self i }
        ensures resolved { result.resolved ≡ self.subject.resolved }
        ensures range { result.range ≡ self.subject.range }
        ensures rows { result.rows ≡ self.rows }
        ensures canonical { self.subject.shape ≡ Rectangle →
            AreOfCanonical (over self.subject.resolved) self.subject.range.s self.subject.range.t result.rows }
        ensures stems { self.subject.shape ≡ Stems →
            AreOfStems (over self.subject.resolved) self.subject.range.s (extent_of self.subject).n result.rows }
    {
        canonical_table_exists();
        rows_in_stems_are_whole();
        let ImageStock {
            module,
            basis,
            shape: _,
            range,
            rows,
            starts: _,
            kernels: _,
        } = self;
        Images::of(module, basis, range, rows)
    }
}

/// So many places of kernels, none of which is there.
///
/// # Errors
/// `Memory` if allocation fails.
fn no_kernels(alloc: Global, count: usize) -> Result<Vec<Option<Arc<Kernel>>>, Memory>
    ensures { IfOk result (λ kernels. kernels.items ≡ replicate count None) }
{
    let mut kernels = Vec::with_capacity(alloc, count)?;
    for _ in 0..count {
        kernels.push(None)?;
    }
    Ok(kernels)
}
