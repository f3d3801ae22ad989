//! A null homotopy of the composite of two lifts.
ghost use Rattle.std.specs.Prelude.{◌≡◌, ◌+◌, ◌-ℤ◌, ◌+ℤ◌, ◌<◌, ℕ, suc, pos, length, map, IfOk, OnOk};
ghost use Rattle.f2_vec.specs.Vectors.{sum_of, zeros};
ghost use Rattle.free_module.specs.FreeModule.{degree_at, free_width, IsWithinReach};
ghost use Rattle.free_module.specs.Graded.{free_graded};
ghost use Rattle.free_module.specs.LinearMap.{AreImages, mapped};
ghost use Rattle.square.specs.Squares.{bottom_of};
ghost use Rattle.lift_laws.specs.Products.{first_of};
ghost use Rattle.chain_map.specs.Lifting.{lowered_row, resolution_of, target_of, AreChosen};
ghost use Rattle.yoneda.specs.Products.{AreOnSquare};
ghost use Rattle.massey.specs.Inside.{above_of, above_bc, IsSetting, IsSoIn, IsLastMap, AreLifts, IsComposite, AreMapsOf, AreNext, homotopy_goal, zero_map};

use crate::setting::Setting;
use chain_map::{Held, Inverse, Lift, Source, lowered_generators};
use f2_vec::BitVec;
use finite_module::modules_are_graded_modules;
use free_hom::Hom;
use free_module::{Gens, Target};
use memory::Memory;
use milnor_basis::Basis;
use resolution_laws::canonical_table_is_minimal_resolution;
use std::alloc::Global;

/// The values of the last map, H_(a.s), of a null homotopy of beta gamma on the generators of row n + a.s, through the bracket's degree.
///
/// # Errors
/// `Memory` if allocation fails.
pub(crate) fn last_map(
    alloc: Global,
    setting: &Setting<'_>,
    beta: &Lift,
    gamma: &Lift,
    n: u16,
) -> Result<Vec<BitVec>, Memory>
    requires setting { IsSetting setting.now.table.now setting.now.sphere.now setting.now.range setting.now.places }
    requires lifts { AreLifts setting.now.table.now setting.now.sphere.now setting.now.places beta.now gamma.now }
    requires n { suc n ≡ setting.now.places.c.s + setting.now.places.b.s }
    ensures values { IfOk result (λ last. AreOnSquare setting.now.table.now setting.now.sphere.now setting.now.places.a
        (n + setting.now.places.a.s) (above_of setting.now.places) last.items) }
    ensures map { IfOk result (λ last. IsSoIn
        (IsLastMap setting.now.table.now setting.now.sphere.now setting.now.places n beta.now gamma.now last.items)
        setting.now.table.now setting.now.sphere.now setting.now.places) }
{
    // Why there are such maps.
    canonical_table_is_minimal_resolution();
    modules_are_graded_modules();
    let composite = Composite {
        setting: *setting,
        beta,
        gamma,
        n,
    };
    let mut values = composite.first_map(alloc)?;
    for k in 0..setting.places.a.s {
        values = composite.next_map(alloc, k, values.as_slice())?;
    }
    Ok(values)
}

/// The lifts beta of b and gamma of c, for maps H_k from F_(n+k) of the module's resolution to F_k of the sphere's with
/// d H_(k+1) + H_k d = beta_k gamma_(b.s+k), where n is one row below that of bc. They are given by their values on the generators through the
/// bracket's degree.
#[derive(Drop)]
pub(crate) struct Composite<'a> {
    pub(crate) setting: Setting<'a>,
    pub(crate) beta: &'a Lift,
    pub(crate) gamma: &'a Lift,
    pub(crate) n: u16,
}

impl Composite<'_> {
    /// How many degrees the square that is `j` above the module's bottom is above bc.
    fn over(&self, j: u16) -> i32
        requires { IsSetting self.now.setting.table.now self.now.setting.sphere.now self.now.setting.range
            self.now.setting.places }
        ensures { result ≡ pos j -ℤ pos (above_bc self.now.setting.places) }
    {
        i32::from(j) - i32::from(self.setting.above_bc())
    }

    /// The values of H_0, which are zero.
    fn first_map(&self, alloc: Global) -> Result<Vec<BitVec>, Memory>
        requires { IsComposite self.now.setting.table.now self.now.setting.sphere.now self.now.setting.range
            self.now.setting.places self.now.n self.now.beta.now self.now.gamma.now }
        ensures { IfOk result (λ values. values.items
            ≡ zero_map self.now.setting.table.now self.now.setting.sphere.now self.now.setting.places self.now.n) }
    {
        let setting = &self.setting;
        let far = setting.places.a.above + 1;
        let target = setting.sphere.generators(alloc, 0, far)?;
        let source = lowered_generators(
            alloc,
            setting.table,
            self.n,
            setting.above() + 1,
            setting.above_bc(),
        )?;
        let basis = setting.table.basis(alloc, setting.above())?;
        zero_values(alloc, basis, &source, &target)
    }

    /// The values of H_(k+1), from those of H_k.
    fn next_map(&self, alloc: Global, k: u16, below: &[BitVec]) -> Result<Vec<BitVec>, Memory>
        requires composite { IsComposite self.now.setting.table.now self.now.setting.sphere.now self.now.setting.range
            self.now.setting.places self.now.n self.now.beta.now self.now.gamma.now }
        requires row { k < self.now.setting.places.a.s }
        requires below { AreImages
            (free_graded (target_of self.now.setting.sphere.now k (self.now.setting.places.a.above + 1)))
            (lowered_row self.now.setting.table.now (self.now.n + k) (above_of self.now.setting.places + 1)
            (above_bc self.now.setting.places))
            below.now }
        ensures { IfOk result (λ values. AreNext self.now.setting.table.now self.now.setting.sphere.now
            self.now.setting.places self.now.n self.now.beta.now self.now.gamma.now k below.now values.items) }
    {
        let setting = &self.setting;
        let places = setting.places;
        let target = setting.sphere.generators(alloc, k, places.a.above + 1)?;
        let whole = Source {
            held: Held::Squares(setting.sphere),
        };
        let inner = lowered_generators(
            alloc,
            &whole,
            places.b.s + k,
            setting.above_ab() + 1,
            places.b.above,
        )?;
        let source = lowered_generators(
            alloc,
            setting.table,
            self.n + k,
            setting.above() + 1,
            setting.above_bc(),
        )?;
        let basis = setting.table.basis(alloc, setting.above())?;
        let count = inner.degrees().len();
        let beta = Hom::new(basis, &inner, &target, &self.beta.vectors(k)[..count]);
        let map = Hom::new(basis, &source, &target, below);
        let mut values = Vec::new(alloc);
        for j in 0..setting.above() + 1 {
            self.next_square(alloc, k, j, &beta, &map, &mut values)?;
        }
        Ok(values)
    }

    /// Appends the values of the next map of the null homotopy on the square that is `j` above the bottom. The values on the squares
    /// before it are there.
    fn next_square(
        &self,
        alloc: Global,
        k: u16,
        j: u16,
        beta: &Hom<'_, Gens>,
        map: &Hom<'_, Gens>,
        values: &mut Vec<BitVec>,
    ) -> Result<(), Memory>
        requires composite { IsComposite self.now.setting.table.now self.now.setting.sphere.now self.now.setting.range
            self.now.setting.places self.now.n self.now.beta.now self.now.gamma.now }
        requires row { k < self.now.setting.places.a.s }
        requires within { j < above_of self.now.setting.places + 1 }
        requires maps { AreMapsOf self.now.setting.table.now self.now.setting.sphere.now self.now.setting.places
            self.now.n k beta.now.basis.now map.now.basis.now beta.now.source.now beta.now.target.now map.now.source.now
            map.now.target.now }
        requires made { AreChosen self.now.setting.table.now self.now.setting.sphere.now (suc (self.now.n + k)) (suc k)
            (bottom_of self.now.setting.table.now.resolved +ℤ pos (above_bc self.now.setting.places))
            (homotopy_goal self.now.setting.table.now self.now.setting.sphere.now self.now.setting.places self.now.n k
            beta.now.images.now self.now.gamma.now map.now.images.now)
            (first_of (resolution_of self.now.setting.table.now) (suc (self.now.n + k)) j) values.old.items }
        ensures { OnOk result (AreChosen self.now.setting.table.now self.now.setting.sphere.now (suc (self.now.n + k))
            (suc k) (bottom_of self.now.setting.table.now.resolved +ℤ pos (above_bc self.now.setting.places))
            (homotopy_goal self.now.setting.table.now self.now.setting.sphere.now self.now.setting.places self.now.n k
            beta.now.images.now self.now.gamma.now map.now.images.now)
            (first_of (resolution_of self.now.setting.table.now) (suc (self.now.n + k)) (j + 1)) values.new.items) }
    {
        let images = self.setting.table.images_of(self.n + k + 1, j);
        if images.is_empty() {
            return Ok(());
        }
        let u = self.over(j);
        let inverse = Inverse::of(alloc, self.setting.sphere, k + 1, u)?;
        let inner = self.gamma.vectors(self.setting.places.b.s + k);
        for i in 0..images.len() {
            let goal = goal(alloc, u, beta, map, &inner[values.len()], &images[i])?;
            values.push(inverse.preimage(alloc, &goal)?)?;
        }
        Ok(())
    }
}

/// What d has to take a value to: beta on what gamma gives, and the map below on what d gives, together. Both are vectors of degree `u`.
fn goal(
    alloc: Global,
    u: i32,
    beta: &Hom<'_, Gens>,
    map: &Hom<'_, Gens>,
    gamma: &BitVec,
    image: &BitVec,
) -> Result<BitVec, Memory>
    requires beta_source { IsWithinReach beta.now.basis.now beta.now.source.now u }
    requires beta_target { IsWithinReach beta.now.basis.now beta.now.target.now u }
    requires map_source { IsWithinReach map.now.basis.now map.now.source.now u }
    requires map_target { IsWithinReach map.now.basis.now map.now.target.now u }
    requires one_target { beta.now.target.now ≡ map.now.target.now }
    requires gamma { length gamma.now ≡ free_width beta.now.source.now u }
    requires image { length image.now ≡ free_width map.now.source.now u }
    ensures goal { IfOk result
        (λ v. v ≡ sum_of (mapped (free_graded beta.now.target.now) beta.now.source.now beta.now.images.now u gamma.now)
        (mapped (free_graded map.now.target.now) map.now.source.now map.now.images.now u image.now)) }
    ensures length { IfOk result (λ v. length v ≡ free_width map.now.target.now u) }
{
    let mut goal = beta.apply(alloc, u, gamma)?;
    let rest = map.apply(alloc, u, image)?;
    goal.xor_with(&rest);
    Ok(goal)
}

/// Zero vectors of `target`, one in the degree of each generator of `source`.
fn zero_values(
    alloc: Global,
    basis: &Basis,
    source: &Gens,
    target: &Gens,
) -> Result<Vec<BitVec>, Memory>
    requires { (g : ℕ) → g < length source.now → IsWithinReach basis.now target.now (degree_at source.now g) }
    ensures { IfOk result (λ values. values.items ≡ map (λ d. zeros (free_width target.now d)) source.now) }
{
    let mut values = Vec::new(alloc);
    for degree in source.degrees() {
        let Ok(width) = usize::try_from(target.dim(basis, *degree)) else {
            return Err(Memory);
        };
        values.push(BitVec::zero(alloc, width)?)?;
    }
    Ok(values)
}
