//! A row of a resolution: its generators and their images.
ghost use Rattle.std.specs.Prelude.{◌≡◌, ℕ, ◌+◌, ◌<◌, ◌≤◌, ◌≤ℤ◌, pos, negsuc, List, take, drop, length, IfOk, OnOk, OnErr};
ghost use Rattle.bidegree.specs.declared.range.TheConstants.{MAX_T};
ghost use Rattle.free_module.specs.FreeModule.{degree_at};
ghost use Rattle.resolution_laws.specs.Resolution.{Content, square_in, degrees_from};
ghost use Rattle.resolution_images.specs.BareRows.{no_bare_row, contents_of, IsBareRowOf, IsSomeRow};
ghost use Rattle.resolution_images.specs.Made.{with_one_square};

use f2_vec::BitVec;
use free_module::Gens;
use memory::Memory;
use std::alloc::Global;
use std::marker::Model;

/// The generators of a row and their images, square by square from the bottom on.
#[derive(Drop)]
pub struct Row {
    gens: Gens,
    images: Vec<BitVec>,
    counts: Vec<usize>,
}

impl Model for Row {
    ghost use Rattle.resolution_images.specs.BareRows.{BareRow};

    ghost Value = { BareRow };

    ghost view = { λ r. record { degrees = r.gens; images = r.images.items; counts = r.counts.items } };
}

impl Row {
    /// The row of no square.
    pub fn new(alloc: Global) -> Row
        ensures { result ≡ no_bare_row }
    {
        Row {
            gens: Gens::new(alloc),
            images: Vec::new(alloc),
            counts: Vec::new(alloc),
        }
    }

    /// The degrees of the generators.
    pub fn gens(&self) -> &Gens
        ensures { result.now ≡ self.now.degrees }
    {
        &self.gens
    }

    /// The images of the generators, in order.
    pub fn images(&self) -> &[BitVec]
        ensures { result.now ≡ self.now.images }
    {
        self.images.as_slice()
    }

    /// How many generators each square has, from the bottom on.
    pub fn counts(&self) -> &[usize]
        ensures { result.now ≡ self.now.counts }
    {
        self.counts.as_slice()
    }

    /// The images of the generators of the square that is `k` degrees above the bottom.
    pub fn square(&self, k: usize) -> &[BitVec]
        requires { k < length self.now.counts }
        ensures { result.now ≡ (square_in (contents_of self.now) k).images }
    {
        let mut rest = self.images.as_slice();
        for i in 0..k {
            rest = after(rest, self.counts[i]);
        }
        first(rest, self.counts[k])
    }

    /// The generators of the first `n` squares, or of all where there are fewer. The first square is of degree `bottom`.
    ///
    /// # Errors
    /// `Memory` if allocation fails.
    pub fn first_gens(&self, alloc: Global, bottom: i32, n: usize) -> Result<Gens, Memory>
        requires row { IsSomeRow bottom self.now }
        requires few { length self.now.counts ≤ MAX_T + 1 }
        requires not_below { negsuc 127 ≤ℤ bottom }
        requires not_above { bottom ≤ℤ pos 128 }
        ensures { IfOk result (λ gens. (squares : List Content) → IsBareRowOf bottom squares self.now →
            gens ≡ degrees_from bottom (take n squares)) }
    {
        let mut gens = Gens::new(alloc);
        for k in 0..n.min(self.counts.len()) {
            gens.push_many(self.counts[k], bottom + k as i32)?;
        }
        Ok(gens)
    }

    /// A copy of the row, the first square of which is of degree `bottom`.
    ///
    /// # Errors
    /// `Memory` if allocation fails.
    pub fn copy(&self, alloc: Global, bottom: i32) -> Result<Row, Memory>
        requires row { IsSomeRow bottom self.now }
        requires few { length self.now.counts ≤ MAX_T + 1 }
        requires not_below { negsuc 127 ≤ℤ bottom }
        requires not_above { bottom ≤ℤ pos 128 }
        ensures { IfOk result (λ row. row ≡ self.now) }
    {
        let gens = self.first_gens(alloc, bottom, self.counts.len())?;
        let mut images = Vec::new(alloc);
        images.extend_with_clones(self.images.as_slice())?;
        let counts = Vec::from_slice(alloc, self.counts.as_slice())?;
        Ok(Row {
            gens,
            images,
            counts,
        })
    }

    /// Puts the generators of one more square, of internal degree `degree`, behind the others: `new` are their images.
    ///
    /// # Errors
    /// `Memory` if allocation fails; the row is then as before.
    pub fn push(&mut self, degree: i32, mut new: Vec<BitVec>) -> Result<(), Memory>
        requires not_below { (g : ℕ) → g < length self.old.degrees → degree_at self.old.degrees g ≤ℤ degree }
        ensures ok { OnOk result (self.new ≡ with_one_square self.old degree new.items) }
        ensures err { OnErr result (self.new ≡ self.old) }
    {
        let count = new.len();
        self.counts.reserve(1)?;
        self.images.reserve(count)?;
        self.gens.push_many(count, degree)?;
        self.counts.push_reserved(count);
        self.images.append(&mut new)?;
        Ok(())
    }
}

/// The first `count` images, or all where there are fewer.
fn first(images: &[BitVec], count: usize) -> &[BitVec]
    ensures { result.now ≡ take count images.now }
{
    images.split_at(count.min(images.len())).0
}

/// The images behind the first `count`.
fn after(images: &[BitVec], count: usize) -> &[BitVec]
    ensures { result.now ≡ drop count images.now }
{
    images.split_at(count.min(images.len())).1
}
