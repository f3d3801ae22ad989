//! The maps of lifts, row by row.
ghost use Rattle.std.specs.Prelude.{◌≡◌, ◌≤◌, ◌<◌, ◌+◌, ◌-ℤ◌, ◌+ℤ◌, ◌≤ℤ◌, ℕ, zero, suc, pos, negsuc, Option, length, map, take, IfOk, OnOk, slice_index_or, nat_eq, ◌&&◌, IsTrue};
ghost use Rattle.bidegree.specs.declared.range.TheConstants.{MAX_T};
ghost use Rattle.f2_vec.specs.Spans.{row};
ghost use Rattle.free_module.specs.FreeModule.{free_width, IsWithinReach};
ghost use Rattle.free_module.specs.Graded.{free_graded};
ghost use Rattle.free_module.specs.LinearMap.{AreImages, mapped};
ghost use Rattle.resolution_laws.specs.Resolution.{degrees_from, row_of};
ghost use Rattle.square.specs.Squares.{bottom_of};
ghost use Rattle.square.specs.Tables.{row_in};
ghost use Rattle.lift_laws.specs.Lifts.{IsSphere};
ghost use Rattle.lift_laws.specs.Products.{first_of, count_of};
ghost use Rattle.chain_map.specs.Lifting.{IsInverseAt, resolution_of, IsChosenFor, next_goal, target_of, lowered_row};
ghost use Rattle.chain_map.specs.Inside.{AreInverses, AreMade, class_of, class_value, goal_of, IsMade, Reaches};

use crate::inverse::Inverse;
use crate::maps::Lift;
use crate::source::Source;
use crate::values::Values;
use f2_vec::BitVec;
use free_hom::Hom;
use free_module::Gens;
use memory::Memory;
use square::Table;
use std::alloc::Global;

/// The generators of the first `n` squares of row `s` of the table, each in a degree that is lower by that of the squares that are
/// `above` above the bottom.
///
/// # Errors
/// `Memory` if allocation fails.
pub fn lowered_generators(
    alloc: Global,
    table: &Source<'_>,
    s: u16,
    n: u16,
    above: u16,
) -> Result<Gens, Memory>
    requires { n ≤ length (row_in table.now.rows s) }
    ensures { IfOk result (λ gens. gens ≡ lowered_row table.now s n above) }
{
    let mut gens = Gens::new(alloc);
    for k in 0..n {
        let count = table.images_of(s, k).len();
        gens.push_many(count, i32::from(k) - i32::from(above))?;
    }
    Ok(gens)
}

/// What lifts of classes of one square go over: the two tables, the row of the square and how many degrees it is above the
/// bottom, how many degrees they go through, and how many squares of each row of the sphere's table they use.
#[derive(Drop)]
pub(crate) struct Course<'a> {
    pub(crate) table: &'a Source<'a>,
    pub(crate) sphere: &'a Table,
    pub(crate) s: u16,
    pub(crate) above: u16,
    pub(crate) reach: u16,
    pub(crate) far: u16,
}

impl Course<'_> {
    /// How many degrees the square that is `n` above the bottom is above that of the classes.
    fn over(&self, n: u16) -> i32
        ensures { result ≡ pos n -ℤ pos self.now.above }
    {
        i32::from(n) - i32::from(self.above)
    }

    /// The quasi-inverse of d_k for the values on the square in row s + k that is `n` above the bottom, if it has generators.
    fn inverse(&self, alloc: Global, k: u16, n: u16) -> Result<Inverse, Memory>
        requires sphere { IsSphere (resolution_of self.now.sphere.now) }
        requires reaches { Reaches self.now.table.now self.now.sphere.now self.now.s self.now.above k self.now.reach
            self.now.far }
        requires within { n < self.now.reach }
        ensures { IfOk result (λ inverse. 0 < count_of (resolution_of self.now.table.now) (self.now.s + k) n →
            IsInverseAt self.now.sphere.now k (pos n -ℤ pos self.now.above) inverse) }
    {
        if self.table.images_of(self.s + k, n).is_empty() {
            return Ok(Inverse::none());
        }
        Inverse::of(alloc, self.sphere, k, self.over(n))
    }

    /// The quasi-inverses of d_k for the values on all squares of row s + k, in order of degree.
    pub(crate) fn inverses(&self, alloc: Global, k: u16) -> Result<Vec<Inverse>, Memory>
        requires sphere { IsSphere (resolution_of self.now.sphere.now) }
        requires reaches { Reaches self.now.table.now self.now.sphere.now self.now.s self.now.above k self.now.reach
            self.now.far }
        ensures { IfOk result (λ list. AreInverses self.now.table.now self.now.sphere.now (self.now.s + k) k
            self.now.above self.now.reach list.items) }
    {
        let mut inverses = Vec::new(alloc);
        for n in 0..self.reach {
            inverses.push(self.inverse(alloc, k, n)?)?;
        }
        Ok(inverses)
    }

    /// The values of map `k` of a lift of the square's number `class`, which has the maps below it.
    pub(crate) fn row(
        &self,
        alloc: Global,
        k: u16,
        inverses: &Vec<Inverse>,
        class: usize,
        lift: &Lift,
    ) -> Result<Values, Memory>
        requires sphere { IsSphere (resolution_of self.now.sphere.now) }
        requires reaches { Reaches self.now.table.now self.now.sphere.now self.now.s self.now.above k self.now.reach
            self.now.far }
        requires inverses { AreInverses self.now.table.now self.now.sphere.now (self.now.s + k) k self.now.above
            self.now.reach inverses.now.items }
        requires class { class < count_of (resolution_of self.now.table.now) self.now.s self.now.above }
        requires made { IsMade self.now.table.now self.now.sphere.now self.now.s self.now.above self.now.reach
            self.now.far class k lift.now }
        ensures { IfOk result (AreMade self.now.table.now self.now.sphere.now (self.now.s + k) k
            (bottom_of self.now.table.now.resolved +ℤ pos self.now.above)
            (goal_of self.now.table.now self.now.sphere.now self.now.s self.now.above self.now.reach self.now.far class
            lift.now k)
            self.now.reach) }
    {
        match k.checked_sub(1) {
            None => self.first_row(alloc, inverses, class),
            Some(below) => self.next_row(alloc, below, inverses, lift.vectors(below)),
        }
    }

    /// The values of map 0: d_0 takes them to the class.
    fn first_row(
        &self,
        alloc: Global,
        inverses: &Vec<Inverse>,
        class: usize,
    ) -> Result<Values, Memory>
        requires sphere { IsSphere (resolution_of self.now.sphere.now) }
        requires reaches { Reaches self.now.table.now self.now.sphere.now self.now.s self.now.above 0 self.now.reach
            self.now.far }
        requires inverses { AreInverses self.now.table.now self.now.sphere.now self.now.s 0 self.now.above
            self.now.reach inverses.now.items }
        requires class { class < count_of (resolution_of self.now.table.now) self.now.s self.now.above }
        ensures { IfOk result (AreMade self.now.table.now self.now.sphere.now self.now.s 0
            (bottom_of self.now.table.now.resolved +ℤ pos self.now.above)
            (class_of self.now.table.now self.now.sphere.now self.now.s self.now.above class) self.now.reach) }
    {
        let mut values = Values::new(alloc);
        for n in 0..self.reach {
            self.first_square(alloc, n, &inverses[usize::from(n)], class, &mut values)?;
        }
        Ok(values)
    }

    /// Appends the values of map 0 on the square that is `n` above the bottom. The values on the squares before it are there.
    fn first_square(
        &self,
        alloc: Global,
        n: u16,
        inverse: &Inverse,
        class: usize,
        values: &mut Values,
    ) -> Result<(), Memory>
        requires sphere { IsSphere (resolution_of self.now.sphere.now) }
        requires reaches { Reaches self.now.table.now self.now.sphere.now self.now.s self.now.above 0 self.now.reach
            self.now.far }
        requires within { n < self.now.reach }
        requires class { class < count_of (resolution_of self.now.table.now) self.now.s self.now.above }
        requires inverse { 0 < count_of (resolution_of self.now.table.now) self.now.s n →
            IsInverseAt self.now.sphere.now 0 (pos n -ℤ pos self.now.above) inverse.now }
        requires made { AreMade self.now.table.now self.now.sphere.now self.now.s 0
            (bottom_of self.now.table.now.resolved +ℤ pos self.now.above)
            (class_of self.now.table.now self.now.sphere.now self.now.s self.now.above class) n values.old }
        ensures { OnOk result (AreMade self.now.table.now self.now.sphere.now self.now.s 0
            (bottom_of self.now.table.now.resolved +ℤ pos self.now.above)
            (class_of self.now.table.now self.now.sphere.now self.now.s self.now.above class) (n + 1) values.new) }
    {
        values.begin_square()?;
        for i in 0..self.table.images_of(self.s, n).len() {
            let value = self.first_value(alloc, n, i, inverse, class)?;
            values.push(value)?;
        }
        Ok(())
    }

    /// The value on number `i` of that square.
    fn first_value(
        &self,
        alloc: Global,
        n: u16,
        i: usize,
        inverse: &Inverse,
        class: usize,
    ) -> Result<BitVec, Memory>
        requires sphere { IsSphere (resolution_of self.now.sphere.now) }
        requires reaches { Reaches self.now.table.now self.now.sphere.now self.now.s self.now.above 0 self.now.reach
            self.now.far }
        requires within { n < self.now.reach }
        requires inverse { IsInverseAt self.now.sphere.now 0 (pos n -ℤ pos self.now.above) inverse.now }
        ensures { IfOk result (IsChosenFor self.now.sphere.now 0 (pos n -ℤ pos self.now.above)
            (class_value ((resolution_of self.now.sphere.now).base.graded.width (pos n -ℤ pos self.now.above))
            (nat_eq n self.now.above && nat_eq i class))) }
    {
        let width = self.sphere.module().dim_in(self.over(n));
        let own = self.is_own(n, i, class);
        let goal = class_value(alloc, width, own)?;
        inverse.preimage(alloc, &goal)
    }

    /// Whether number `i` of that square is the generator of number `class` of the classes' square.
    fn is_own(&self, n: u16, i: usize, class: usize) -> bool
        ensures { result ≡ (nat_eq n self.now.above && nat_eq i class) }
    {
        n == self.above && i == class
    }

    /// The values of map k + 1, where `below` has those of map `k`: d_(k+1) takes them to the value of map k on what d takes the
    /// generator to.
    fn next_row(
        &self,
        alloc: Global,
        k: u16,
        inverses: &Vec<Inverse>,
        below: &[BitVec],
    ) -> Result<Values, Memory>
        requires sphere { IsSphere (resolution_of self.now.sphere.now) }
        requires reaches { Reaches self.now.table.now self.now.sphere.now self.now.s self.now.above (suc k)
            self.now.reach self.now.far }
        requires inverses { AreInverses self.now.table.now self.now.sphere.now (suc (self.now.s + k)) (suc k)
            self.now.above self.now.reach inverses.now.items }
        requires below { AreImages (free_graded (target_of self.now.sphere.now k self.now.far))
            (lowered_row self.now.table.now (self.now.s + k) self.now.reach self.now.above) below.now }
        ensures { IfOk result (AreMade self.now.table.now self.now.sphere.now (suc (self.now.s + k)) (suc k)
            (bottom_of self.now.table.now.resolved +ℤ pos self.now.above)
            (next_goal self.now.table.now self.now.sphere.now (self.now.s + k) k self.now.above self.now.reach
            self.now.far below.now)
            self.now.reach) }
    {
        let source = lowered_generators(alloc, self.table, self.s + k, self.reach, self.above)?;
        let target = self.sphere.generators(alloc, k, self.far)?;
        let basis = self.table.basis(alloc, self.reach - 1)?;
        let map = Hom::new(basis, &source, &target, below);
        let mut values = Values::new(alloc);
        for n in 0..self.reach {
            self.next_square(alloc, k, n, &inverses[usize::from(n)], &map, &mut values)?;
        }
        Ok(values)
    }

    /// Appends the values of the next map on the square that is `n` above the bottom. The values on the squares before it are there.
    fn next_square(
        &self,
        alloc: Global,
        k: u16,
        n: u16,
        inverse: &Inverse,
        map: &Hom<'_, Gens>,
        values: &mut Values,
    ) -> Result<(), Memory>
        requires sphere { IsSphere (resolution_of self.now.sphere.now) }
        requires within { n < self.now.reach }
        requires reaches { Reaches self.now.table.now self.now.sphere.now self.now.s self.now.above (suc k)
            self.now.reach self.now.far }
        requires inverse { 0 < count_of (resolution_of self.now.table.now) (suc (self.now.s + k)) n →
            IsInverseAt self.now.sphere.now (suc k) (pos n -ℤ pos self.now.above) inverse.now }
        requires basis { n ≤ map.now.basis.now }
        requires source { map.now.source.now
            ≡ lowered_row self.now.table.now (self.now.s + k) self.now.reach self.now.above }
        requires target { map.now.target.now ≡ target_of self.now.sphere.now k self.now.far }
        requires made { AreMade self.now.table.now self.now.sphere.now (suc (self.now.s + k)) (suc k)
            (bottom_of self.now.table.now.resolved +ℤ pos self.now.above)
            (next_goal self.now.table.now self.now.sphere.now (self.now.s + k) k self.now.above self.now.reach
            self.now.far map.now.images.now)
            n values.old }
        ensures { OnOk result (AreMade self.now.table.now self.now.sphere.now (suc (self.now.s + k)) (suc k)
            (bottom_of self.now.table.now.resolved +ℤ pos self.now.above)
            (next_goal self.now.table.now self.now.sphere.now (self.now.s + k) k self.now.above self.now.reach
            self.now.far map.now.images.now)
            (n + 1) values.new) }
    {
        values.begin_square()?;
        let images = self.table.images_of(self.s + k + 1, n);
        for i in 0..images.len() {
            let value = self.next_value(alloc, k, n, inverse, map, &images[i])?;
            values.push(value)?;
        }
        Ok(())
    }

    /// The value on a generator of that square, whose image is `image`.
    fn next_value(
        &self,
        alloc: Global,
        k: u16,
        n: u16,
        inverse: &Inverse,
        map: &Hom<'_, Gens>,
        image: &BitVec,
    ) -> Result<BitVec, Memory>
        requires sphere { IsSphere (resolution_of self.now.sphere.now) }
        requires within { n < self.now.reach }
        requires reaches { Reaches self.now.table.now self.now.sphere.now self.now.s self.now.above (suc k)
            self.now.reach self.now.far }
        requires inverse { IsInverseAt self.now.sphere.now (suc k) (pos n -ℤ pos self.now.above) inverse.now }
        requires basis { n ≤ map.now.basis.now }
        requires source { map.now.source.now
            ≡ lowered_row self.now.table.now (self.now.s + k) self.now.reach self.now.above }
        requires target { map.now.target.now ≡ target_of self.now.sphere.now k self.now.far }
        requires width { length image.now ≡ free_width map.now.source.now (pos n -ℤ pos self.now.above) }
        ensures { IfOk result (IsChosenFor self.now.sphere.now (suc k) (pos n -ℤ pos self.now.above)
            (mapped (free_graded map.now.target.now) map.now.source.now map.now.images.now (pos n -ℤ pos self.now.above)
            image.now)) }
    {
        let goal = map.apply(alloc, self.over(n), image)?;
        inverse.preimage(alloc, &goal)
    }
}

/// The value of a class on a generator, in the field with two elements or, of width 0, outside its degree: 1 on the class's own.
fn class_value(alloc: Global, width: usize, own: bool) -> Result<BitVec, Memory>
    requires { IsTrue own → 0 < width }
    ensures { IfOk result (λ v. v ≡ class_value width own) }
{
    if own {
        return BitVec::unit(alloc, width, 0);
    }
    BitVec::zero(alloc, width)
}
