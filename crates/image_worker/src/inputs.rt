//! What the images at a place are made from.
ghost use Rattle.std.specs.Prelude.{◌≡◌, ◌≤◌, ◌<◌, ◌+◌, ◌^◌, ◌↔◌, IfOk, IsTrue, option_map, suc};
ghost use Rattle.std.specs.Arc.{arc_value};
ghost use Rattle.square.specs.Squares.{over};
ghost use Rattle.resolution_images.specs.Made.{IsSquareInStems, IsToCover};
ghost use Rattle.image_worker.specs.Stocks.{extent_of, extent_in, IsMadeAt};

use bidegree::{Range, Shape};
use f2_kernel::Kernel;
use f2_vec::BitVec;
use finite_module::Module;
use free_module::Gens;
use memory::Memory;
use milnor_basis::Basis;
use resolution_images::{Column, Extent, Made, Row, degree};
use std::alloc::Global;
use std::marker::Model;
use std::sync::Arc;
use stem_laws::rows_in_stems_are_whole;

/// What images are made of: a module, and the squares of a range that are meant.
#[derive(Drop)]
pub struct ImageSubject {
    pub resolved: Module,
    pub range: Range,
    pub shape: Shape,
}

/// What the images and the kernel at a place are made from: the images of its row, the generators under that, and what the
/// place has to cover. It is shared with the rows in the making, or copied, so that these can go on.
#[derive(Drop)]
pub struct ImageInputs {
    pub(crate) module: Arc<Module>,
    pub(crate) basis: Arc<Basis>,
    pub(crate) shape: Shape,
    pub(crate) range: Range,
    pub(crate) s: u16,
    pub(crate) above: u16,
    pub(crate) row: Row,
    pub(crate) under: Gens,
    pub(crate) below: Option<Arc<Kernel>>,
}

impl Model for ImageInputs {
    ghost use Rattle.std.specs.Prelude.{◌≤◌, option_map};
    ghost use Rattle.std.specs.Arc.{arc_value};
    ghost use Rattle.square.specs.Squares.{over};
    ghost use Rattle.image_worker.specs.Stocks.{ImagePlace, extent_in};
    ghost use Rattle.image_worker.specs.Inside.Kept.{IsRange, AreFor};

    ghost Value = { ImagePlace };

    ghost view = { λ i. record {
      subject = record { resolved = arc_value i.module; range = i.range; shape = i.shape };
      s = i.s;
      above = i.above;
    } };

    ghost invariant = { λ i. IsRange i.shape i.range (arc_value i.basis)
        × (i.above ≤ i.range.t)
        × AreFor (over (arc_value i.module)) (extent_in i.shape i.range) i.s i.above i.row i.under
        (option_map arc_value i.below) };
}

/// What is made at a place: the images of the square, and the kernel that the next one of that degree has to cover. Behind the
/// last square of a row there are no images, and in the last row no kernel.
#[derive(Drop)]
pub struct MadeImages {
    pub(crate) images: Vec<BitVec>,
    pub(crate) kernel: Option<Arc<Kernel>>,
}

impl ImageInputs {
    /// Makes what there is at the place.
    ///
    /// # Errors
    /// `Memory` if allocation fails.
    pub fn made(&self, alloc: Global) -> Result<MadeImages, Memory>
        ensures { IfOk result (λ made. IsMadeAt (over self.now.subject.resolved) (extent_of self.now.subject) self.now.s
            self.now.above made.images.items (option_map arc_value made.kernel)) }
    {
        if self.is_start() {
            return self.start(alloc);
        }
        let Made { images, kernel } = self.square(alloc)?;
        if self.s == self.range.s {
            return Ok(MadeImages {
                images,
                kernel: None,
            });
        }
        Ok(MadeImages {
            images,
            kernel: Some(Arc::new(alloc, kernel)?),
        })
    }

    /// Makes the kernel behind the last square of the row.
    ///
    /// # Errors
    /// `Memory` if allocation fails.
    fn start(&self, alloc: Global) -> Result<MadeImages, Memory>
        requires start { (extent_of self.now.subject).n + self.now.s < self.now.above }
        ensures { IfOk result (λ made. IsMadeAt (over self.now.subject.resolved) (extent_of self.now.subject) self.now.s
            self.now.above made.images.items (option_map arc_value made.kernel)) }
    {
        rows_in_stems_are_whole();
        let kernel = self
            .column()
            .kernel(alloc, usize::from(self.s), &self.row, &self.under)?;
        Ok(MadeImages {
            images: Vec::new(alloc),
            kernel: Some(Arc::new(alloc, kernel)?),
        })
    }

    /// Makes the square.
    ///
    /// # Errors
    /// `Memory` if allocation fails.
    fn square(&self, alloc: Global) -> Result<Made, Memory>
        requires square { self.now.above ≤ (extent_of self.now.subject).n + self.now.s }
        ensures square { IfOk result (λ made. IsSquareInStems (over self.now.subject.resolved)
            (extent_of self.now.subject) self.now.s self.now.above
            (record { images = made.images.items; kernel = made.kernel.rows })) }
        ensures kernel { IfOk result (λ made. IsToCover (over self.now.subject.resolved) (extent_of self.now.subject)
            (suc self.now.s) self.now.above made.kernel) }
    {
        let column = self.column();
        let s = usize::from(self.s);
        match &self.below {
            Some(below) => column.made(alloc, s, &self.row, &self.under, below),
            None => {
                let whole = column.whole(alloc)?;
                column.made(alloc, s, &self.row, &self.under, &whole)
            }
        }
    }

    /// Whether the place is the one behind the last square of the row.
    fn is_start(&self) -> bool
        ensures { IsTrue result ↔ ((extent_of self.now.subject).n + self.now.s < self.now.above) }
    {
        let last = self.extent().n + self.s;
        self.above > last
    }

    /// The rows and the stems in which squares are made.
    fn extent(&self) -> Extent
        ensures extent { result ≡ extent_of self.now.subject }
        ensures small { result.n + self.now.s < 2 ^ 16 }
    {
        extent_through(self.shape, self.range)
    }

    /// The squares of the degree of the place.
    fn column(&self) -> Column<'_>
        ensures resolved { result.module.now ≡ self.now.subject.resolved }
        ensures extent { result.extent ≡ extent_of self.now.subject }
        ensures degree { result.k ≡ self.now.above }
        ensures basis { self.now.above ≤ result.basis.now }
    {
        Column {
            module: &self.module,
            basis: &self.basis,
            extent: self.extent(),
            k: self.above,
        }
    }

    /// The greatest degree above the bottom in which the row's products are asked for.
    pub(crate) fn reach(&self) -> u16 {
        let last = self.extent().n + self.s;
        self.range.t.min(last.saturating_add(1))
    }

    /// Whether the square that is `a` degrees above the bottom is before the place and has generators.
    pub(crate) fn has_generators(&self, a: u16) -> bool {
        match self.row.counts().get(usize::from(a)) {
            Some(count) => *count > 0,
            None => false,
        }
    }

    /// Makes the products that the square `above` degrees above the bottom will ask for, with the generators that are `a` degrees
    /// above it. They are kept with the Milnor bases.
    ///
    /// # Errors
    /// `Memory` if allocation fails.
    pub(crate) fn make_products(&self, alloc: Global, a: u16, above: u16) -> Result<(), Memory> {
        let a_place = usize::from(a);
        if a > above || above > self.basis.max() || a_place >= self.row.counts().len() {
            return Ok(());
        }
        let t = degree(&self.module, a);
        for image in self.row.square(a_place) {
            make_multiples(alloc, &self.basis, above - a, t, image, &self.under)?;
        }
        Ok(())
    }
}

/// The rows and the stems in which squares of a range of this shape are made.
pub(crate) fn extent_through(shape: Shape, range: Range) -> Extent
    ensures { result ≡ extent_in shape range }
{
    Extent {
        last: range.s,
        n: shape.last_degree(range, 0),
    }
}

/// Makes the products of the elements of degree `left` with the terms of `image`, whose degree is `t`. It is a vector of the free
/// module on the generators `under` it. Terms of which the bases have no product are left out.
///
/// # Errors
/// `Memory` if allocation fails.
fn make_multiples(
    alloc: Global,
    basis: &Basis,
    left: u16,
    t: i32,
    image: &BitVec,
    under: &Gens,
) -> Result<(), Memory>
    requires { left ≤ basis.now }
{
    let mut start = 0;
    for degree in under.degrees() {
        let Ok(right) = u16::try_from(i64::from(t) - i64::from(*degree)) else {
            return Ok(());
        };
        if right > basis.max() - left {
            return Ok(());
        }
        start = basis.make_multiples(alloc, left, right, image, start)?;
    }
    Ok(())
}
